ghost use Rattle.std.specs.Prelude.{◌<◌, ◌≤◌};
ghost use Rattle.bonds.specs.Bonds.{most_lag};

use crate::stub::Stub;

/// The terms of a bond whose fields are in their ranges.
#[derive(Clone, Copy)]
pub struct Terms {
    pub(crate) number: u32,
    pub(crate) effective: u32,
    pub(crate) maturity: u32,
    // A number and no enum of the four periods: it is only multiplied by a number of periods.
    pub(crate) months: u32,
    pub(crate) stub: Stub,
    pub(crate) month_end: bool,
    pub(crate) lag: u32,
    pub(crate) face: u64,
    pub(crate) rate: u32,
    ghost early: { 365 ≤ effective },
    ghost rising: { effective < maturity },
    ghost late: { maturity ≤ 109207 },
    ghost some: { 1 ≤ months },
    ghost year: { months ≤ 12 },
    ghost lagged: { lag ≤ most_lag },
    ghost faced: { face ≤ 100000000000 },
    ghost rated: { rate ≤ 100000 },
}
