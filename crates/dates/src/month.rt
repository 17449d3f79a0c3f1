ghost use Rattle.std.specs.Prelude.{◌<◌};

/// A month from January 1900, counted as 0, to December 2199.
#[derive(Clone, Copy)]
pub struct Month {
    index: u32,
    ghost within: { index < 3600 },
}

/// A day by its month and its place in that, from 0.
#[derive(Clone, Copy)]
pub struct MonthPlace {
    pub month: Month,
    pub place: u32,
}

mod calls;
