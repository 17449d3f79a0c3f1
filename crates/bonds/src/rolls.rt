ghost use Rattle.std.specs.Prelude.{◌≡◌, ◌≤◌, length};
ghost use Rattle.bonds.specs.Rolls.{kept};

use crate::terms::Terms;

// No iterator of the days: callers name a roll by its number, and one takes its lag by it too.
/// The unadjusted rolls of a bond: effective, the regular dates that are kept, maturity; at most 100.
#[derive(Clone, Copy)]
pub struct Rolls {
    terms: Terms,
    inner: u32,
    ghost counted: { length (kept terms) ≡ inner },
    ghost few: { inner ≤ 98 },
}

mod calls;
