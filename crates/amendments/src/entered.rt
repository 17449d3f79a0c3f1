use calendars::Code;
use dates::Day;
use tables::Keyed;

/// An amendment that a layer holds: its code is one that a day can have.
#[derive(Clone, Copy)]
pub(crate) struct Entered {
    pub(crate) day: Day,
    pub(crate) code: Code,
}

impl Keyed for Entered {
    ghost key = { λ e. e.day.0 };

    fn key(&self) -> u64 {
        u64::from(self.day.0)
    }
}
