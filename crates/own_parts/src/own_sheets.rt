use crate::closed_season::ClosedSeason;
use crate::next_day::NextDay;
use amendments::AmendmentLayer;
use bonds::Bond;
use calendars::{Joint, Layer, target_calendar};
use changes::Change;
use dates::Day;
use day_cache::DayCache;
use faults::{Fault, GenerationFault, RollAt};
use notices::Notice;
use sheet::{Answer, Call, Counts, Outcome, Sheet, make_calls};
use std::alloc::{AllocError, Global};
use std::test::Fail;

/// 1 January 2024, a Monday.
const NEW_YEAR: Day = Day(45_290);

/// 1 February 2024.
const FEBRUARY: Day = Day(45_321);

/// From 1 December 2023 on, with a roll on the first of each month; 1,000 a day are paid.
const BOND: Bond = Bond {
    number: 1,
    effective: Day(45_259),
    maturity: FEBRUARY,
    months: 1,
    stub: 0,
    mark: 0,
    lag: 2,
    face: 36_000_000,
    rate: 1_000,
};

/// Closed from 24 December to New Year, by layer 4.
fn season() -> ClosedSeason {
    ClosedSeason {
        first: Day(45_282),
        last: NEW_YEAR,
        layer: Layer::new(4),
    }
}

/// A line for each change.
fn tell_changes(text: &mut String, changes: &[Option<Change>]) -> Result<(), AllocError> {
    for change in changes.iter().flatten() {
        writeln!(text, "{change}")?;
    }
    Ok(())
}

/// What became of each call: the answer and the changes, or the refusal.
fn tell(text: &mut String, outcomes: &[Outcome]) -> Result<(), AllocError> {
    for outcome in outcomes {
        match outcome.answer {
            Ok(answer) => writeln!(text, "{answer}")?,
            Err(fault) => writeln!(text, "no {}", fault.number())?,
        }
        tell_changes(text, outcome.changes.as_slice())?;
    }
    Ok(())
}

/// Enters the bond and declares 1 February, then the day after it; the first notice's changes are told.
fn declare_twice(text: &mut String) -> Result<[Result<Answer, Fault>; 3], AllocError> {
    let calendar = AmendmentLayer::new(season(), 9);
    let mut sheet = Sheet::new(calendar, NextDay);
    let mut list = [None; 2];
    let entered = sheet.call(Call::Enter(BOND), &mut list);
    let first = sheet.call(Call::Amend(Notice::Declare(FEBRUARY)), &mut list);
    tell_changes(text, &list)?;
    let second = sheet.call(Call::Amend(Notice::Declare(Day(45_322))), &mut list);
    Ok([entered, first, second])
}

#[test]
fn days_declared(rt: HostRuntime) -> Result<(), Fail> {
    let mut text = String::new(rt.alloc());
    let [entered, first, second] = declare_twice(&mut text)?;
    assert_eq!(rt; entered, Ok(Answer::Entered(1, 3)));
    // The last roll goes to 2 February.
    let counts = Counts {
        rolls: 1,
        changes: 1,
    };
    assert_eq!(rt;
        first,
        Ok(Answer::Amended(Notice::Declare(FEBRUARY), counts))
    );
    assert_eq!(rt;
        text.as_str(),
        "1 2 2024-02-01 2024-02-02 2023-12-22 2023-12-22 30 31 30000 31000 9 0\n"
    );
    // It can go no farther.
    let at = RollAt {
        bond: 1,
        roll: 2,
        day: FEBRUARY.0,
    };
    assert_eq!(rt;
        second,
        Err(Fault::Generation(GenerationFault::NoGoodDay(at)))
    );
    Ok(())
}

const CALLS: [Call; 4] = [
    Call::Enter(BOND),
    Call::Amend(Notice::Cancel(NEW_YEAR)),
    Call::Amend(Notice::Withdraw(NEW_YEAR)),
    Call::Retire(2),
];

/// The roll of New Year goes to 2 January and back; 23 December, a Saturday, is closed by T, so its fixing is on the 21st.
const TOLD: &str = "entered 1 3
cancelled 1 2
1 1 2024-01-02 2024-01-01 2023-11-29 2023-11-29 32 31 32000 31000 0 4
1 2 2024-02-01 2024-02-01 2023-12-21 2023-12-21 30 31 30000 31000 0 0
withdrawn 1 2
1 1 2024-01-01 2024-01-02 2023-11-29 2023-11-29 31 32 31000 32000 4 0
1 2 2024-02-01 2024-02-01 2023-12-21 2023-12-21 31 30 31000 30000 0 0
no 4
";

/// Makes the calls on a sheet over both parts, with T and a cache.
fn outcomes(heap: Global) -> Result<Vec<Outcome>, Fail> {
    let joint = Joint::new(season(), target_calendar()?);
    let calendar = DayCache::new(AmendmentLayer::new(joint, 9), Day(44_925));
    let mut list = [None; 2];
    let run = make_calls(heap, calendar, NextDay, &CALLS, &mut list)?;
    Ok(run.outcomes)
}

#[test]
fn calls_made(rt: HostRuntime) -> Result<(), Fail> {
    let outcomes = outcomes(rt.alloc())?;
    let mut text = String::new(rt.alloc());
    tell(&mut text, outcomes.as_slice())?;
    assert_eq!(rt; text.as_str(), TOLD);
    Ok(())
}
