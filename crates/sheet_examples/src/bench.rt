use amendments::Amendable;
use bonds::Bond;
use changes::Change;
use conventions::Convention;
use dates::{CivilDate, Day};
use faults::{CalendarFault, Fault, SheetFault};
use sheet::{Answer, Call, Sheet};
use std::process::Abort;
use std::test::Fail;

/// A year, a month and a day.
// A tuple and no `CivilDate`: a constant's value takes no call that would make one in a line.
pub(crate) type Date = (u16, u8, u8);

/// A bond, with dates.
#[derive(Clone, Copy)]
pub(crate) struct Draft {
    pub(crate) number: u64,
    pub(crate) effective: Date,
    pub(crate) maturity: Date,
    pub(crate) months: u64,
    pub(crate) stub: u64,
    pub(crate) mark: u64,
    pub(crate) lag: u64,
    pub(crate) face: u64,
    pub(crate) rate: u64,
}

/// Two rolls, a month apart; 1,000 a day are paid.
pub(crate) const MONTH: Draft = Draft {
    number: 1,
    effective: (2000, 1, 15),
    maturity: (2000, 2, 15),
    months: 1,
    stub: 0,
    mark: 0,
    lag: 2,
    face: 36_000_000,
    rate: 1_000,
};

/// Two periods of half a year, to the month's end.
pub(crate) const HALVES: Draft = Draft {
    number: 7,
    effective: (2023, 9, 30),
    maturity: (2024, 9, 30),
    months: 6,
    mark: 1,
    face: 100_000_000,
    rate: 4_500,
    ..MONTH
};

/// A payment as it is expected.
#[derive(Clone, Copy)]
pub(crate) struct Due {
    pub(crate) date: Date,
    pub(crate) fixing: Date,
    pub(crate) days: u32,
    pub(crate) amount: u64,
}

/// A date as a day; one that does not exist is a mistake of the example.
fn day_of(date: Date) -> Result<Day, CalendarFault> {
    let (year, month, day) = date;
    CivilDate { year, month, day }.day()
}

impl Draft {
    /// The monthly bond of a number with so many rolls, the first on 15 January 2000.
    fn of_rolls(number: u64, rolls: u16) -> Draft {
        let months = rolls.saturating_sub(1);
        let year = 2000u16.saturating_add(months / 12);
        // Narrowed by `as`: from 1 to 12.
        let month = (months % 12 + 1) as u8;
        Draft {
            number,
            maturity: (year, month, 15),
            ..MONTH
        }
    }

    pub(crate) fn bond(self) -> Result<Bond, CalendarFault> {
        Ok(Bond {
            number: self.number,
            effective: day_of(self.effective)?,
            maturity: day_of(self.maturity)?,
            months: self.months,
            stub: self.stub,
            mark: self.mark,
            lag: self.lag,
            face: self.face,
            rate: self.rate,
        })
    }
}

/// A sheet on which calls are made, each with what has to come of it, and the list that notices bring.
#[derive(Drop)]
pub(crate) struct Bench<'a, R, P: Amendable, C: Convention> {
    rt: &'a R,
    sheet: Sheet<P, C>,
    list: [Option<Change>; 4],
}

mod noticing;

impl<'a, R: Abort, P: Amendable, C: Convention> Bench<'a, R, P, C> {
    pub(crate) fn new(rt: &'a R, sheet: Sheet<P, C>) -> Bench<'a, R, P, C> {
        Bench {
            rt,
            sheet,
            list: [None; 4],
        }
    }

    fn check_entry(&mut self, draft: Draft, answer: Result<u32, Fault>) -> Result<(), Fail> {
        assert_eq!(self.rt; self.sheet.enter(draft.bond()?), answer);
        Ok(())
    }

    /// A bond is entered, with so many rolls.
    pub(crate) fn takes(&mut self, draft: Draft, rolls: u32) -> Result<(), Fail> {
        self.check_entry(draft, Ok(rolls))
    }

    /// A bond is refused.
    pub(crate) fn refuses(&mut self, draft: Draft, fault: Fault) -> Result<(), Fail> {
        self.check_entry(draft, Err(fault))
    }

    /// The monthly bond of a number with so many rolls is entered.
    pub(crate) fn enters(&mut self, number: u64, rolls: u16) -> Result<(), Fail> {
        self.takes(Draft::of_rolls(number, rolls), u32::from(rolls))
    }

    /// It is refused.
    pub(crate) fn refused(
        &mut self,
        number: u64,
        rolls: u16,
        fault: SheetFault,
    ) -> Result<(), Fail> {
        self.refuses(Draft::of_rolls(number, rolls), Fault::Sheet(fault))
    }

    /// The bonds 1 to 32 are entered, with 2 rolls each.
    pub(crate) fn fills(&mut self) -> Result<(), Fail> {
        for number in 1..33 {
            self.enters(number, 2)?;
        }
        Ok(())
    }

    /// The bond of a number is retired.
    pub(crate) fn retires(&mut self, number: u64) -> Result<(), Fail> {
        assert_eq!(self.rt; self.sheet.retire(number), Ok(()));
        Ok(())
    }

    /// No bond of a number is live, for retiring or for reading.
    pub(crate) fn not_live(&mut self, number: u64) -> Result<(), Fail> {
        let fault = SheetFault::NotLive(number);
        self.check_unread(number, 1, fault)?;
        assert_eq!(self.rt; self.sheet.retire(number), Err(Fault::Sheet(fault)));
        Ok(())
    }

    /// The bond of a number has no such payment.
    pub(crate) fn no_payment(&mut self, number: u64, k: u64) -> Result<(), Fail> {
        self.check_unread(number, k, SheetFault::NoPayment(number))
    }

    fn check_unread(&mut self, number: u64, k: u64, fault: SheetFault) -> Result<(), Fail> {
        assert_eq!(self.rt; self.sheet.payment(number, k), Err(fault));
        Ok(())
    }

    /// A payment of the bond of a number is this one.
    pub(crate) fn pays(&mut self, number: u64, k: u64, due: Due) -> Result<(), Fail> {
        let payment = self.sheet.payment(number, k)?;
        assert_eq!(self.rt; payment.date.day(), day_of(due.date)?);
        assert_eq!(self.rt; payment.fixing, Some(day_of(due.fixing)?));
        assert_eq!(self.rt; payment.days, due.days);
        assert_eq!(self.rt; payment.amount, due.amount);
        Ok(())
    }

    fn check_call(&mut self, call: Call, answer: Answer) -> Result<(), Fail> {
        assert_eq!(self.rt; self.sheet.call(call, &mut self.list), Ok(answer));
        Ok(())
    }

    /// A call enters a bond, with so many rolls.
    pub(crate) fn call_enters(&mut self, draft: Draft, rolls: u32) -> Result<(), Fail> {
        self.check_call(
            Call::Enter(draft.bond()?),
            Answer::Entered(draft.number, rolls),
        )
    }

    /// A call retires the bond of a number.
    pub(crate) fn call_retires(&mut self, number: u64) -> Result<(), Fail> {
        self.check_call(Call::Retire(number), Answer::Retired(number))
    }
}
