/// A calendar refuses.
#[derive(Clone, Copy, PartialEq, Eq, Debug)]
pub enum CalendarFault {
    /// 10: the day lies after 31 December 2199.
    DayAbove(u32),
    /// 13: nothing is entered for the day.
    NotEntered(u32),
    /// 14: the amendments would be more than 200.
    EntriesFull,
    /// 41: the rule holds as many entries as it can.
    RuleFull,
    /// 42: the entry is out of range, impossible or held already; or there is no such date.
    BadEntry,
    /// 42: the listed day at this place, from 0, does not rise or lies too late.
    NotRising(usize),
}

// Numbers and no `Option`: without a bond the refusal still names bond 0 and roll 0.
/// A roll of a bond, with the day that the terms give it; bond and roll are 0 where there is no bond.
#[derive(Clone, Copy, PartialEq, Eq, Debug)]
pub struct RollAt {
    pub bond: u64,
    pub roll: u32,
    pub day: u32,
}

/// A calendar and a bond do not go together.
#[derive(Clone, Copy, PartialEq, Eq, Debug)]
pub enum GenerationFault {
    /// 20: no day that is tried is good.
    NoGoodDay(RollAt),
    /// 21: too few good days for the fixing.
    NoFixing(RollAt),
    /// 45: the convention's list has no such place.
    NotTried,
}

/// The text cannot be read.
#[derive(Clone, Copy, PartialEq, Eq, Debug)]
pub enum TextFault {
    /// 50: the line, from 1, has not the form of an entry.
    BadLine(usize),
    /// 51: more than 65,536 bytes.
    TooLong,
}

/// A sheet refuses; the cases that hold a number hold the bond's.
#[derive(Clone, Copy, PartialEq, Eq, Debug)]
pub enum SheetFault {
    /// 1: a field is out of its range, days aside.
    OutOfRange(u64),
    /// 2: a day is not from 365 to 109,207, or maturity is too early.
    BadDays(u64),
    /// 3: such a bond is live.
    Live(u64),
    /// 4: no such bond is live.
    NotLive(u64),
    /// 5: the bond has above 100 rolls.
    ManyRolls(u64),
    /// 6: a 33rd bond, or more than 400 rolls on the sheet.
    SheetFull(u64),
    /// 7: no such payment.
    NoPayment(u64),
    /// 11: a move from a day to itself.
    SameDay,
    /// 12: a day to be closed was closed before, or one to be opened was good; names that day.
    WrongState(u32),
    /// 30: the list has fewer places than there are changes.
    ShortList,
}

/// Any refusal, by its origin.
#[derive(Clone, Copy, PartialEq, Eq, Debug)]
pub enum Fault {
    Calendar(CalendarFault),
    Generation(GenerationFault),
    Text(TextFault),
    Sheet(SheetFault),
}
