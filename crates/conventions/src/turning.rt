ghost use Rattle.std.specs.Prelude.{◌≡◌, ◌+◌, ◌≤◌, length};

use dates::Day;
use faults::GenerationFault;

/// The days from an unadjusted one up to a last, then so many before it, the nearest first.
#[derive(Clone, Copy)]
pub(crate) struct Turning {
    pub(crate) u: u32,
    pub(crate) last: u32,
    pub(crate) back: u32,
    ghost served: { (365 ≤ u) × (u ≤ 109207) },
    ghost ahead: { (u ≤ last) × (last ≤ u + 30) },
    ghost few: { back ≤ 30 },
}

mod calls;
