use crate::bench::{Bench, HALVES, MONTH};
use crate::good_friday::{FROM_FRIDAY, GOOD_FRIDAY, THURSDAY, TO_FRIDAY};
use crate::lines::check_lines;
use crate::sheets::{program_calendar, program_sheet};
use conventions::ModifiedFollowing;
use faults::{CalendarFault, Fault, SheetFault};
use notices::Notice;
use sheet::{Answer, Call, Counts, make_calls};
use std::test::Fail;

/// Calls that are granted and calls that are refused; the last notice counts no roll.
fn calls() -> Result<[Call; 8], CalendarFault> {
    let halves = HALVES.bond()?;
    Ok([
        Call::Enter(halves),
        Call::Amend(Notice::Cancel(GOOD_FRIDAY)),
        Call::Amend(Notice::Cancel(GOOD_FRIDAY)),
        Call::Enter(halves),
        Call::Enter(MONTH.bond()?),
        Call::Amend(Notice::Withdraw(GOOD_FRIDAY)),
        Call::Retire(7),
        Call::Amend(Notice::Declare(THURSDAY)),
    ])
}

const ONE_AND_TWO: Counts = Counts {
    rolls: 1,
    changes: 2,
};

const NOTHING: Counts = Counts {
    rolls: 0,
    changes: 0,
};

/// What comes of each, with the changes that it lists.
const TOLD: [(Result<Answer, Fault>, &[&str]); 8] = [
    (Ok(Answer::Entered(7, 3)), &[]),
    (
        Ok(Answer::Amended(Notice::Cancel(GOOD_FRIDAY), ONE_AND_TWO)),
        &TO_FRIDAY,
    ),
    (Err(Fault::Sheet(SheetFault::WrongState(45_378))), &[]),
    (Err(Fault::Sheet(SheetFault::Live(7))), &[]),
    (Ok(Answer::Entered(1, 2)), &[]),
    (
        Ok(Answer::Amended(Notice::Withdraw(GOOD_FRIDAY), ONE_AND_TWO)),
        &FROM_FRIDAY,
    ),
    (Ok(Answer::Retired(7)), &[]),
    (Ok(Answer::Amended(Notice::Declare(THURSDAY), NOTHING)), &[]),
];

#[test]
fn a_list_of_calls(rt: HostRuntime) -> Result<(), Fail> {
    let heap = rt.alloc();
    let mut list = [None; 3];
    let run = make_calls(
        heap,
        program_calendar()?,
        ModifiedFollowing,
        &calls()?,
        &mut list,
    )?;
    assert_eq!(rt; run.outcomes.len(), TOLD.len());
    for (outcome, (answer, lines)) in run.outcomes.iter().zip(TOLD) {
        assert_eq!(rt; outcome.answer, answer);
        check_lines(&rt, heap, outcome.changes.as_slice(), lines)?;
    }
    check_lines(&rt, heap, &list, &[FROM_FRIDAY[0], FROM_FRIDAY[1], ""])?;
    // MONTH alone is live.
    assert_eq!(rt; run.sheet.payment(1, 1)?.amount, 29_000);
    assert_eq!(rt; run.sheet.payment(7, 1), Err(SheetFault::NotLive(7)));
    Ok(())
}

#[test]
fn the_calls_one_by_one(rt: HostRuntime) -> Result<(), Fail> {
    let heap = rt.alloc();
    let mut list = [None; 3];
    let mut sheet = program_sheet()?;
    for (call, (answer, lines)) in calls()?.iter().zip(TOLD) {
        assert_eq!(rt; sheet.call(*call, &mut list), answer);
        check_lines(&rt, heap, &list[..lines.len().min(3)], lines)?;
    }
    check_lines(&rt, heap, &list, &[FROM_FRIDAY[0], FROM_FRIDAY[1], ""])
}

#[test]
fn no_calls(rt: HostRuntime) -> Result<(), Fail> {
    let run = make_calls(
        rt.alloc(),
        program_calendar()?,
        ModifiedFollowing,
        &[],
        &mut [],
    )?;
    assert!(rt; run.outcomes.is_empty());
    assert_eq!(rt; run.sheet.payment(7, 1), Err(SheetFault::NotLive(7)));
    Ok(())
}

#[test]
fn a_call_with_a_short_list(rt: HostRuntime) -> Result<(), Fail> {
    let mut sheet = program_sheet()?;
    let call = Call::Amend(Notice::Cancel(GOOD_FRIDAY));
    sheet.enter(HALVES.bond()?)?;
    assert_eq!(rt;
        sheet.call(call, &mut [None]),
        Err(Fault::Sheet(SheetFault::ShortList))
    );
    assert_eq!(rt;
        sheet.call(call, &mut [None; 2]),
        Ok(Answer::Amended(Notice::Cancel(GOOD_FRIDAY), ONE_AND_TWO))
    );
    Ok(())
}

/// An answer, as it is printed.
#[test]
fn printed_answers(rt: HostRuntime) -> Result<(), Fail> {
    let counts = Counts {
        rolls: 5,
        changes: 12,
    };
    for (answer, text) in [
        (Answer::Entered(7, 3), "entered 7 3"),
        (Answer::Retired(999_999), "retired 999999"),
        (
            Answer::Amended(Notice::Declare(THURSDAY), counts),
            "declared 5 12",
        ),
        (
            Answer::Amended(Notice::Cancel(THURSDAY), counts),
            "cancelled 5 12",
        ),
        (
            Answer::Amended(Notice::Move(GOOD_FRIDAY, THURSDAY), counts),
            "moved 5 12",
        ),
        (
            Answer::Amended(Notice::Withdraw(THURSDAY), counts),
            "withdrawn 5 12",
        ),
    ] {
        assert_eq!(rt; answer.to_string(rt.alloc())?.as_str(), text);
    }
    Ok(())
}
