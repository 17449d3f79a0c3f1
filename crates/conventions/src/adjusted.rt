ghost use Rattle.std.specs.Prelude.{◌≤◌};

/// A day on which money moves; only the search over a convention's list makes one.
#[derive(Clone, Copy, PartialEq, Eq, Debug)]
pub struct Adjusted {
    number: u32,
    ghost within: { (335 ≤ number) × (number ≤ 109237) },
}

pub(crate) mod search;
