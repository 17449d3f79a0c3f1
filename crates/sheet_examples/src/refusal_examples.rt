use crate::bench::{Bench, Draft, Due, MONTH};
use crate::sheets::{closed_weeks_sheet, closed_winter_sheet, program_sheet, winter};
use conventions::Following;
use faults::{Fault, GenerationFault, RollAt, SheetFault};
use std::test::Fail;

/// 101 rolls, of a bond whose number is live on a full sheet.
const LIVE: Draft = Draft {
    number: 5,
    maturity: (2008, 5, 15),
    ..MONTH
};

/// It matures on its first day.
const SHORT: Draft = Draft {
    maturity: (2000, 1, 15),
    ..LIVE
};

const OUT_OF_RANGE: Fault = Fault::Sheet(SheetFault::OutOfRange(5));

#[test]
fn fields_before_days(rt: HostRuntime) -> Result<(), Fail> {
    let mut bench = Bench::new(&rt, program_sheet()?);
    bench.fills()?;
    bench.refuses(
        Draft { number: 0, ..SHORT },
        Fault::Sheet(SheetFault::OutOfRange(0)),
    )?;
    bench.refuses(
        Draft {
            number: 1_000_000,
            ..SHORT
        },
        Fault::Sheet(SheetFault::OutOfRange(1_000_000)),
    )?;
    bench.refuses(Draft { months: 2, ..SHORT }, OUT_OF_RANGE)?;
    bench.refuses(Draft { stub: 4, ..SHORT }, OUT_OF_RANGE)?;
    bench.refuses(Draft { mark: 2, ..SHORT }, OUT_OF_RANGE)?;
    bench.refuses(Draft { lag: 11, ..SHORT }, OUT_OF_RANGE)?;
    bench.refuses(Draft { face: 0, ..SHORT }, OUT_OF_RANGE)?;
    bench.refuses(
        Draft {
            face: 100_000_000_001,
            ..SHORT
        },
        OUT_OF_RANGE,
    )?;
    bench.refuses(
        Draft {
            rate: 100_001,
            ..SHORT
        },
        OUT_OF_RANGE,
    )?;
    Ok(())
}

const BAD_DAYS: Fault = Fault::Sheet(SheetFault::BadDays(5));

#[test]
fn days_before_the_rest(rt: HostRuntime) -> Result<(), Fail> {
    let mut bench = Bench::new(&rt, program_sheet()?);
    bench.refuses(SHORT, BAD_DAYS)?;
    bench.fills()?;
    bench.refuses(SHORT, BAD_DAYS)?;
    bench.refuses(
        Draft {
            effective: (1900, 12, 31),
            ..LIVE
        },
        BAD_DAYS,
    )?;
    bench.refuses(
        Draft {
            maturity: (2199, 1, 1),
            ..LIVE
        },
        BAD_DAYS,
    )?;
    bench.refuses(LIVE, Fault::Sheet(SheetFault::Live(5)))?;
    bench.refused(33, 101, SheetFault::ManyRolls(33))?;
    bench.refused(33, 100, SheetFault::SheetFull(33))?;
    Ok(())
}

#[test]
fn no_good_day(rt: HostRuntime) -> Result<(), Fail> {
    let mut bench = Bench::new(&rt, closed_weeks_sheet(Following));
    bench.refused(1, 101, SheetFault::ManyRolls(1))?;
    // 15 January 2000
    bench.refuses(
        MONTH,
        Fault::Generation(GenerationFault::NoGoodDay(RollAt {
            bond: 1,
            roll: 0,
            day: 36_538,
        })),
    )?;
    bench.not_live(1)?;
    Ok(())
}

/// Of `MONTH`, whose roll of 15 January goes to 13 February; of the 60 days before, 15 and 16 December are good.
const IN_WINTER: Due = Due {
    date: (2000, 2, 15),
    fixing: (1999, 12, 15),
    days: 2,
    amount: 2_000,
};

/// A third good day before each roll is asked for, and one of these is on 20 December.
const OVER_WINTER: Draft = Draft {
    number: 30,
    effective: (1999, 11, 20),
    maturity: (2000, 2, 20),
    lag: 3,
    ..MONTH
};

/// 20 December 1999.
const AT_DECEMBER: Fault = Fault::Generation(GenerationFault::NoGoodDay(RollAt {
    bond: 30,
    roll: 1,
    day: 36_512,
}));

#[test]
fn failing_rolls(rt: HostRuntime) -> Result<(), Fail> {
    let days = winter();
    let mut bench = Bench::new(&rt, closed_winter_sheet(&days)?);
    bench.takes(MONTH, 2)?;
    bench.pays(1, 1, IN_WINTER)?;
    // 15 January 2000
    bench.refuses(
        Draft {
            number: 30,
            lag: 3,
            ..MONTH
        },
        Fault::Generation(GenerationFault::NoFixing(RollAt {
            bond: 30,
            roll: 0,
            day: 36_538,
        })),
    )?;
    bench.not_live(30)?;
    bench.pays(1, 1, IN_WINTER)?;
    bench.refuses(OVER_WINTER, AT_DECEMBER)?;
    bench.not_live(30)?;
    bench.pays(1, 1, IN_WINTER)?;
    Ok(())
}

#[test]
fn full_before_closed(rt: HostRuntime) -> Result<(), Fail> {
    let days = winter();
    let mut bench = Bench::new(&rt, closed_winter_sheet(&days)?);
    bench.fills()?;
    bench.refuses(OVER_WINTER, Fault::Sheet(SheetFault::Live(30)))?;
    bench.retires(30)?;
    bench.enters(33, 2)?;
    bench.refuses(OVER_WINTER, Fault::Sheet(SheetFault::SheetFull(30)))?;
    bench.retires(33)?;
    bench.refuses(OVER_WINTER, AT_DECEMBER)?;
    Ok(())
}
