use dates::Day;

// Numbers, also where they stand for kinds: a bond is held as it was typed, and any number gets its answer from `terms`.
/// A bond as it is written; any numbers fit.
#[derive(Clone, Copy, PartialEq, Debug)]
pub struct Bond {
    pub number: u64,
    pub effective: Day,
    pub maturity: Day,
    /// Months a period.
    pub months: u64,
    /// 0 short first, 1 long first, 2 short last, 3 long last.
    pub stub: u64,
    /// 1 where regular dates keep to the month's end.
    pub mark: u64,
    /// How many good days before a roll its fixing lies.
    pub lag: u64,
    /// In minor units.
    pub face: u64,
    /// A year's rate in hundred-thousandths.
    pub rate: u64,
}
