use crate::bench::{Bench, Draft, Due, HALVES, MONTH};
use crate::good_friday::{
    FIRST_ON_FRIDAY, FROM_FRIDAY, GOOD_FRIDAY, SATURDAY, SECOND_AFTER_FRIDAY, THURSDAY, TO_FRIDAY,
};
use crate::sheets::{
    ProgramCalendar, closed_weeks_sheet, closed_winter_sheet, program_sheet, winter,
};
use amendments::AmendmentLayer;
use calendars::Weekly;
use conventions::ModifiedFollowing;
use dates::Day;
use faults::{CalendarFault, Fault, GenerationFault, RollAt, SheetFault};
use notices::Notice;
use std::process::Abort;
use std::test::Fail;

/// The first Saturday of 2040, far from all rolls.
const FAR_SATURDAY: Day = Day(51_140);

const SAME_DAY: Fault = Fault::Sheet(SheetFault::SameDay);

const SHORT_LIST: Fault = Fault::Sheet(SheetFault::ShortList);

const ENTRIES_FULL: Fault = Fault::Calendar(CalendarFault::EntriesFull);

fn day_above(day: u32) -> Fault {
    Fault::Calendar(CalendarFault::DayAbove(day))
}

fn wrong_state(day: Day) -> Fault {
    Fault::Sheet(SheetFault::WrongState(day.0))
}

fn not_entered(day: Day) -> Fault {
    Fault::Calendar(CalendarFault::NotEntered(day.0))
}

type ProgramBench<'a, R> = Bench<'a, R, ProgramCalendar, ModifiedFollowing>;

/// `HALVES` is entered, and Good Friday opened.
fn open_friday<'a, R: Abort + AllocGlobal>(rt: &'a R) -> Result<ProgramBench<'a, R>, Fail> {
    let mut bench = Bench::new(rt, program_sheet()?);
    bench.takes(HALVES, 3)?;
    bench.grants(Notice::Cancel(GOOD_FRIDAY), 1, &TO_FRIDAY)?;
    Ok(bench)
}

/// Payments, list and calendar are as they were then: Good Friday is good, and the days beside it are not entered.
fn check_open_friday<R: Abort + AllocGlobal>(bench: &mut ProgramBench<'_, R>) -> Result<(), Fail> {
    bench.pays(7, 1, FIRST_ON_FRIDAY)?;
    bench.pays(7, 2, SECOND_AFTER_FRIDAY)?;
    bench.lists([TO_FRIDAY[0], TO_FRIDAY[1], "", ""])?;
    bench.denies(Notice::Cancel(GOOD_FRIDAY), wrong_state(GOOD_FRIDAY))?;
    bench.denies(Notice::Withdraw(THURSDAY), not_entered(THURSDAY))?;
    bench.denies(Notice::Withdraw(SATURDAY), not_entered(SATURDAY))
}

/// Each notice is refused, and all stays.
fn check_denied<R: Abort + AllocGlobal>(
    bench: &mut ProgramBench<'_, R>,
    denied: &[(Notice, Fault)],
) -> Result<(), Fail> {
    for (notice, fault) in denied {
        bench.denies(*notice, *fault)?;
        check_open_friday(bench)?;
    }
    Ok(())
}

#[test]
fn late_days(rt: HostRuntime) -> Result<(), Fail> {
    let mut bench = open_friday(&rt)?;
    let late = Day(109_573);
    let later = Day(u32::MAX);
    check_denied(
        &mut bench,
        &[
            (Notice::Declare(late), day_above(109_573)),
            (Notice::Cancel(late), day_above(109_573)),
            (Notice::Withdraw(later), day_above(u32::MAX)),
            (Notice::Move(later, late), day_above(u32::MAX)),
            (Notice::Move(late, THURSDAY), day_above(109_573)),
            (Notice::Move(SATURDAY, late), day_above(109_573)),
            // Refused for the second day, although the first is good.
            (Notice::Move(THURSDAY, late), day_above(109_573)),
            (Notice::Move(late, late), day_above(109_573)),
        ],
    )?;
    // The last day there is, a Tuesday.
    bench.grants(Notice::Declare(Day(109_572)), 0, &[])
}

#[test]
fn moves_between_equal_days(rt: HostRuntime) -> Result<(), Fail> {
    check_denied(
        &mut open_friday(&rt)?,
        &[
            (Notice::Move(THURSDAY, THURSDAY), SAME_DAY),
            (Notice::Move(SATURDAY, SATURDAY), SAME_DAY),
        ],
    )
}

#[test]
fn days_in_the_wrong_state(rt: HostRuntime) -> Result<(), Fail> {
    check_denied(
        &mut open_friday(&rt)?,
        &[
            (Notice::Declare(SATURDAY), wrong_state(SATURDAY)),
            (Notice::Cancel(THURSDAY), wrong_state(THURSDAY)),
            (Notice::Move(THURSDAY, GOOD_FRIDAY), wrong_state(THURSDAY)),
            (Notice::Move(THURSDAY, SATURDAY), wrong_state(THURSDAY)),
            (
                Notice::Move(SATURDAY, FAR_SATURDAY),
                wrong_state(FAR_SATURDAY),
            ),
        ],
    )
}

#[test]
fn days_not_entered(rt: HostRuntime) -> Result<(), Fail> {
    let mut bench = open_friday(&rt)?;
    check_denied(
        &mut bench,
        &[
            (Notice::Withdraw(THURSDAY), not_entered(THURSDAY)),
            (Notice::Withdraw(SATURDAY), not_entered(SATURDAY)),
        ],
    )?;
    bench.retires(7)?;
    bench.grants(Notice::Withdraw(GOOD_FRIDAY), 0, &[])?;
    bench.denies(Notice::Withdraw(GOOD_FRIDAY), not_entered(GOOD_FRIDAY))
}

/// So many Saturdays from 2040 on are opened.
fn open_saturdays<R: Abort + AllocGlobal>(
    bench: &mut ProgramBench<'_, R>,
    many: usize,
) -> Result<(), Fail> {
    for day in (51_140..).step_by(7).take(many) {
        bench.grants(Notice::Cancel(Day(day)), 0, &[])?;
    }
    Ok(())
}

/// With Good Friday 200 days are entered.
#[test]
fn two_hundred_days(rt: HostRuntime) -> Result<(), Fail> {
    let mut bench = open_friday(&rt)?;
    open_saturdays(&mut bench, 199)?;
    check_denied(
        &mut bench,
        &[
            (Notice::Declare(THURSDAY), ENTRIES_FULL),
            (Notice::Cancel(SATURDAY), ENTRIES_FULL),
            (Notice::Move(SATURDAY, THURSDAY), ENTRIES_FULL),
            (Notice::Move(SATURDAY, GOOD_FRIDAY), ENTRIES_FULL),
            // 11, 12 and 13 come before 14.
            (Notice::Move(THURSDAY, THURSDAY), SAME_DAY),
            (Notice::Declare(SATURDAY), wrong_state(SATURDAY)),
            (Notice::Cancel(THURSDAY), wrong_state(THURSDAY)),
            (Notice::Withdraw(THURSDAY), not_entered(THURSDAY)),
        ],
    )
}

/// Among 200 entered days a day that is entered may be amended again, and a move between two of them is no new entry.
#[test]
fn entered_days_amended_again(rt: HostRuntime) -> Result<(), Fail> {
    let mut bench = open_friday(&rt)?;
    open_saturdays(&mut bench, 199)?;
    bench.grants(Notice::Declare(FAR_SATURDAY), 0, &[])?;
    bench.grants(
        Notice::Move(FAR_SATURDAY, GOOD_FRIDAY),
        1,
        &[
            "7 1 2024-03-29 2024-03-28 2023-09-27 2023-09-27 182 181 2275000 2262500 9 0",
            "7 2 2024-09-30 2024-09-30 2024-03-27 2024-03-26 185 186 2312500 2325000 0 0",
        ],
    )?;
    bench.denies(Notice::Declare(THURSDAY), ENTRIES_FULL)
}

/// Of 199 entered days one is Good Friday: a move may enter one more day, but not two.
#[test]
fn a_move_counts_both_days(rt: HostRuntime) -> Result<(), Fail> {
    let mut bench = open_friday(&rt)?;
    open_saturdays(&mut bench, 198)?;
    check_denied(
        &mut bench,
        &[(Notice::Move(SATURDAY, THURSDAY), ENTRIES_FULL)],
    )?;
    bench.retires(7)?;
    bench.grants(Notice::Move(SATURDAY, GOOD_FRIDAY), 0, &[])?;
    bench.denies(Notice::Declare(THURSDAY), ENTRIES_FULL)
}

#[test]
fn short_lists(rt: HostRuntime) -> Result<(), Fail> {
    let mut bench = open_friday(&rt)?;
    let withdraw = Notice::Withdraw(GOOD_FRIDAY);
    bench.denies_in(1, withdraw, SHORT_LIST)?;
    check_open_friday(&mut bench)?;
    bench.denies_in(0, withdraw, SHORT_LIST)?;
    check_open_friday(&mut bench)?;
    bench.grants_in(2, withdraw, 1, &FROM_FRIDAY)
}

/// The only good days of a year's first months: 10 and 17 January and 15 March 2000.
const GOOD_DAYS: [Day; 3] = [Day(36_533), Day(36_540), Day(36_598)];

/// 17 January, to which 15 January and 15 February go.
const LOST: Notice = Notice::Withdraw(Day(36_540));

/// Without 17 January, no day that is tried for 15 February is good.
const UNFIXED: Draft = Draft { lag: 0, ..MONTH };

fn no_good_day(bond: u64) -> Fault {
    Fault::Generation(GenerationFault::NoGoodDay(RollAt {
        bond,
        roll: 1,
        day: 36_569,
    }))
}

/// And 15 January goes to the 10th, before which there is no good day for a fixing.
const FIXED: Draft = Draft { lag: 1, ..MONTH };

fn no_fixing(bond: u64) -> Fault {
    Fault::Generation(GenerationFault::NoFixing(RollAt {
        bond,
        roll: 0,
        day: 36_538,
    }))
}

type WeeksBench<'a, R> = Bench<'a, R, AmendmentLayer<Weekly>, ModifiedFollowing>;

fn three_good_days<'a, R: Abort + AllocGlobal>(rt: &'a R) -> Result<WeeksBench<'a, R>, Fail> {
    let mut bench = Bench::new(rt, closed_weeks_sheet(ModifiedFollowing));
    for day in GOOD_DAYS {
        bench.grants(Notice::Cancel(day), 0, &[])?;
    }
    Ok(bench)
}

/// Bonds by number: the one with the fixing fails first if its number is lower, and then in its first roll.
#[test]
fn first_failing_roll(rt: HostRuntime) -> Result<(), Fail> {
    let mut bench = three_good_days(&rt)?;
    bench.takes(
        Draft {
            number: 9,
            ..UNFIXED
        },
        2,
    )?;
    bench.denies(LOST, no_good_day(9))?;
    bench.takes(Draft { number: 4, ..FIXED }, 2)?;
    bench.denies(LOST, no_fixing(4))?;
    bench.takes(
        Draft {
            number: 3,
            ..UNFIXED
        },
        2,
    )?;
    bench.denies(LOST, no_good_day(3))?;
    bench.lists(["", "", "", ""])?;
    // All of them are paid on 17 January still, which is still entered and good.
    bench.pays(
        4,
        1,
        Due {
            date: (2000, 1, 17),
            fixing: (2000, 1, 10),
            days: 0,
            amount: 0,
        },
    )?;
    bench.denies(Notice::Cancel(Day(36_540)), wrong_state(Day(36_540)))?;
    bench.retires(3)?;
    bench.retires(4)?;
    bench.retires(9)?;
    bench.grants(LOST, 0, &[])
}

/// From 15 January to 15 March 2000.
const OVER_TWO_MONTHS: Draft = Draft {
    number: 2,
    maturity: (2000, 3, 15),
    months: 3,
    ..UNFIXED
};

/// The change of the bond with the lowest number does not fit, but later ones fail.
#[test]
fn failing_before_short(rt: HostRuntime) -> Result<(), Fail> {
    let mut bench = three_good_days(&rt)?;
    bench.takes(OVER_TWO_MONTHS, 2)?;
    bench.takes(
        Draft {
            number: 9,
            ..UNFIXED
        },
        2,
    )?;
    bench.denies_in(0, LOST, no_good_day(9))?;
    bench.takes(Draft { number: 5, ..FIXED }, 2)?;
    bench.denies_in(0, LOST, no_fixing(5))?;
    bench.retires(5)?;
    bench.retires(9)?;
    bench.denies_in(0, LOST, SHORT_LIST)?;
    bench.grants_in(
        1,
        LOST,
        1,
        &["2 1 2000-03-15 2000-03-15 - - 58 65 58000 65000 0 0"],
    )
}

/// 13 February 2000, to which 15 January goes over the winter, and the day after it, the last that is tried.
const SUNDAY: Day = Day(36_567);

const MONDAY: Day = Day(36_568);

/// Days from 50,000 on, in 2036, are entered until there is no room.
#[test]
fn full_before_failing(rt: HostRuntime) -> Result<(), Fail> {
    let days = winter();
    let mut bench = Bench::new(&rt, closed_winter_sheet(&days)?);
    bench.takes(MONTH, 2)?;
    for day in 50_000..50_199 {
        bench.grants(Notice::Declare(Day(day)), 0, &[])?;
    }
    // The day before the winter alone is left for the fixing.
    bench.denies(Notice::Declare(SUNDAY), no_fixing(1))?;
    bench.grants(Notice::Declare(Day(50_199)), 0, &[])?;
    bench.denies(Notice::Declare(SUNDAY), ENTRIES_FULL)?;
    bench.retires(1)?;
    bench.takes(UNFIXED, 2)?;
    bench.grants(Notice::Withdraw(Day(50_199)), 0, &[])?;
    bench.grants(
        Notice::Declare(SUNDAY),
        1,
        &["1 1 2000-02-15 2000-02-15 - - 2 1 2000 1000 0 0"],
    )?;
    bench.denies(Notice::Declare(MONDAY), ENTRIES_FULL)?;
    bench.grants(Notice::Withdraw(Day(50_000)), 0, &[])?;
    bench.denies(
        Notice::Declare(MONDAY),
        Fault::Generation(GenerationFault::NoGoodDay(RollAt {
            bond: 1,
            roll: 0,
            day: 36_538,
        })),
    )
}
