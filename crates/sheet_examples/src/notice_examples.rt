use crate::bench::{Bench, Draft, Due, HALVES, MONTH};
use crate::good_friday::{
    FIRST_ON_FRIDAY, FROM_FRIDAY, GOOD_FRIDAY, SECOND_AFTER_FRIDAY, THURSDAY, TO_FRIDAY,
};
use crate::sheets::program_sheet;
use dates::Day;
use faults::{CalendarFault, Fault, SheetFault};
use notices::Notice;
use std::test::Fail;

/// 3 June 2024, good.
const MONDAY_IN_JUNE: Day = Day(45_444);

/// No payment falls on the day, but it was tried; and the next payment's period starts where the first one's ends.
#[test]
fn cancelled(rt: HostRuntime) -> Result<(), Fail> {
    let mut bench = Bench::new(&rt, program_sheet()?);
    bench.takes(HALVES, 3)?;
    bench.grants(Notice::Cancel(GOOD_FRIDAY), 1, &TO_FRIDAY)?;
    bench.pays(7, 1, FIRST_ON_FRIDAY)?;
    bench.pays(7, 2, SECOND_AFTER_FRIDAY)
}

#[test]
fn declared(rt: HostRuntime) -> Result<(), Fail> {
    let mut bench = Bench::new(&rt, program_sheet()?);
    bench.takes(HALVES, 3)?;
    bench.grants(
        Notice::Declare(THURSDAY),
        1,
        &[
            "7 1 2024-03-28 2024-03-27 2023-09-27 2023-09-27 181 180 2262500 2250000 9 0",
            "7 2 2024-09-30 2024-09-30 2024-03-26 2024-03-25 186 187 2325000 2337500 0 0",
        ],
    )
}

/// Layer 9 closes the old date afterwards, and layer 3 closed the new one before.
#[test]
fn moved(rt: HostRuntime) -> Result<(), Fail> {
    let mut bench = Bench::new(&rt, program_sheet()?);
    bench.takes(HALVES, 3)?;
    bench.grants(
        Notice::Move(GOOD_FRIDAY, THURSDAY),
        1,
        &[
            "7 1 2024-03-28 2024-03-29 2023-09-27 2023-09-27 181 182 2262500 2275000 9 3",
            "7 2 2024-09-30 2024-09-30 2024-03-26 2024-03-26 186 185 2325000 2312500 0 0",
        ],
    )
}

#[test]
fn withdrawn(rt: HostRuntime) -> Result<(), Fail> {
    let mut bench = Bench::new(&rt, program_sheet()?);
    bench.takes(HALVES, 3)?;
    bench.grants(Notice::Cancel(GOOD_FRIDAY), 1, &TO_FRIDAY)?;
    bench.grants(Notice::Withdraw(GOOD_FRIDAY), 1, &FROM_FRIDAY)
}

/// An opened day that is closed again has one entry, and its withdrawal leaves it closed by layer 3: a roll stands on it, but none alters.
#[test]
fn cancelled_and_declared(rt: HostRuntime) -> Result<(), Fail> {
    let mut bench = Bench::new(&rt, program_sheet()?);
    bench.takes(HALVES, 3)?;
    bench.grants(Notice::Cancel(GOOD_FRIDAY), 1, &TO_FRIDAY)?;
    bench.grants(
        Notice::Declare(GOOD_FRIDAY),
        1,
        &[
            "7 1 2024-03-29 2024-03-28 2023-09-27 2023-09-27 182 181 2275000 2262500 9 0",
            "7 2 2024-09-30 2024-09-30 2024-03-27 2024-03-26 185 186 2312500 2325000 0 0",
        ],
    )?;
    bench.grants(Notice::Withdraw(GOOD_FRIDAY), 1, &[])?;
    bench.denies(
        Notice::Withdraw(GOOD_FRIDAY),
        Fault::Calendar(CalendarFault::NotEntered(45_378)),
    )
}

/// 15 June 2024, a Saturday.
const SATURDAY_IN_JUNE: Day = Day(45_456);

/// Once withdrawn, the opened Saturday is closed by the weekly rule, and not by the amendments.
#[test]
fn saturday_withdrawn(rt: HostRuntime) -> Result<(), Fail> {
    let mut bench = Bench::new(&rt, program_sheet()?);
    bench.takes(
        Draft {
            number: 5,
            effective: (2024, 5, 15),
            maturity: (2024, 6, 15),
            ..MONTH
        },
        2,
    )?;
    bench.grants(
        Notice::Cancel(SATURDAY_IN_JUNE),
        1,
        &["5 1 2024-06-17 2024-06-15 2024-05-13 2024-05-13 33 31 33000 31000 0 1"],
    )?;
    bench.grants(
        Notice::Withdraw(SATURDAY_IN_JUNE),
        1,
        &["5 1 2024-06-15 2024-06-17 2024-05-13 2024-05-13 31 33 31000 33000 1 0"],
    )?;
    bench.denies(
        Notice::Declare(SATURDAY_IN_JUNE),
        Fault::Sheet(SheetFault::WrongState(45_456)),
    )
}

/// A bond from 15 January to 15 February 2024.
const JANUARY: Draft = Draft {
    number: 40,
    effective: (2024, 1, 15),
    maturity: (2024, 2, 15),
    ..MONTH
};

/// 12 January 2024, good.
const FRIDAY_IN_JANUARY: Day = Day(45_301);

/// 13 January 2024.
const SATURDAY_IN_JANUARY: Day = Day(45_302);

/// What closing the Friday before its first roll does to it.
const FIXING_BACK: &str = "40 1 2024-02-15 2024-02-15 2024-01-11 2024-01-10 31 31 31000 31000 0 0";

#[test]
fn fixing_moves_alone(rt: HostRuntime) -> Result<(), Fail> {
    let mut bench = Bench::new(&rt, program_sheet()?);
    bench.takes(JANUARY, 2)?;
    bench.grants(Notice::Declare(FRIDAY_IN_JANUARY), 1, &[FIXING_BACK])
}

/// 15 January 2000, a Saturday that the cache has not at hand.
const SATURDAY_IN_2000: Day = Day(36_538);

/// Date and fixing stay, but the period starts on the Saturday.
#[test]
fn days_alter_alone(rt: HostRuntime) -> Result<(), Fail> {
    let mut bench = Bench::new(&rt, program_sheet()?);
    bench.takes(MONTH, 2)?;
    bench.grants(
        Notice::Cancel(SATURDAY_IN_2000),
        1,
        &["1 1 2000-02-15 2000-02-15 2000-01-13 2000-01-13 29 31 29000 31000 0 0"],
    )
}

/// Of the five good days before 15 January, the nearest is the Saturday instead of the Friday.
#[test]
fn counted_and_unaltered(rt: HostRuntime) -> Result<(), Fail> {
    let mut bench = Bench::new(&rt, program_sheet()?);
    bench.takes(Draft { lag: 5, ..JANUARY }, 2)?;
    bench.grants(Notice::Move(SATURDAY_IN_JANUARY, FRIDAY_IN_JANUARY), 1, &[])?;
    bench.pays(
        40,
        1,
        Due {
            date: (2024, 2, 15),
            fixing: (2024, 1, 8),
            days: 31,
            amount: 31_000,
        },
    )
}

#[test]
fn no_roll_counted(rt: HostRuntime) -> Result<(), Fail> {
    let mut bench = Bench::new(&rt, program_sheet()?);
    bench.grants(Notice::Declare(MONDAY_IN_JUNE), 0, &[])?;
    bench.lists(["", "", "", ""])?;
    bench.takes(HALVES, 3)?;
    bench.grants(Notice::Cancel(GOOD_FRIDAY), 1, &TO_FRIDAY)?;
    bench.grants_in(0, Notice::Withdraw(MONDAY_IN_JUNE), 0, &[])?;
    bench.grants(Notice::Declare(MONDAY_IN_JUNE), 0, &[])?;
    bench.lists([TO_FRIDAY[0], TO_FRIDAY[1], "", ""])
}

#[test]
fn places_beyond_untouched(rt: HostRuntime) -> Result<(), Fail> {
    let mut bench = Bench::new(&rt, program_sheet()?);
    bench.takes(HALVES, 3)?;
    bench.takes(JANUARY, 2)?;
    bench.grants(Notice::Cancel(GOOD_FRIDAY), 1, &TO_FRIDAY)?;
    bench.grants(Notice::Declare(FRIDAY_IN_JANUARY), 1, &[FIXING_BACK])?;
    bench.lists([FIXING_BACK, TO_FRIDAY[1], "", ""])
}

/// 15 March 2024, good.
const FRIDAY_IN_MARCH: Day = Day(45_364);

/// One bond ends and one begins on the day; they are entered by falling number.
#[test]
fn bonds_by_number(rt: HostRuntime) -> Result<(), Fail> {
    let mut bench = Bench::new(&rt, program_sheet()?);
    bench.takes(
        Draft {
            number: 30,
            effective: (2024, 2, 15),
            maturity: (2024, 3, 15),
            ..MONTH
        },
        2,
    )?;
    bench.takes(
        Draft {
            number: 20,
            effective: (2024, 3, 15),
            maturity: (2024, 4, 15),
            ..MONTH
        },
        2,
    )?;
    bench.grants(
        Notice::Declare(FRIDAY_IN_MARCH),
        2,
        &[
            "20 1 2024-04-15 2024-04-15 2024-03-13 2024-03-13 31 28 31000 28000 0 0",
            "30 1 2024-03-15 2024-03-18 2024-02-13 2024-02-13 29 32 29000 32000 9 0",
        ],
    )
}

#[test]
fn bond_after_notice(rt: HostRuntime) -> Result<(), Fail> {
    let mut bench = Bench::new(&rt, program_sheet()?);
    bench.grants(Notice::Cancel(GOOD_FRIDAY), 0, &[])?;
    bench.takes(HALVES, 3)?;
    bench.pays(7, 1, FIRST_ON_FRIDAY)
}
