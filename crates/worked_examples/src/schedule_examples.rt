use bonds::{Bond, Rolls};
use calendars::Listed;
use conventions::{Adjuster, Following};
use dates::Day;
use faults::{GenerationFault, RollAt};
use generation::Schedule;
use std::process::Abort;
use std::test::Fail;

/// Rolls on the 15th of each month from January to July 2000, with the fixing five good days before.
fn monthly_rolls() -> Result<Rolls, Fail> {
    let bond = Bond {
        number: 31,
        effective: Day(36_538),
        maturity: Day(36_720),
        months: 1,
        stub: 0,
        mark: 0,
        lag: 5,
        face: 36_000_000,
        rate: 1_000,
    };
    Ok(bond.terms()?.rolls()?)
}

/// A run of 65 days.
fn days_from(first: u32) -> [Day; 65] {
    let mut days = [Day(0); 65];
    for (place, day) in days.iter_mut().zip(first..) {
        *place = Day(day);
    }
    days
}

/// The bond is refused so where the days are closed.
fn check_refused(rt: &impl Abort, closed: &[Day], fault: GenerationFault) -> Result<(), Fail> {
    let mut listed = Listed::new(4);
    listed.replace(closed)?;
    let adjuster = Adjuster {
        calendar: &listed,
        convention: &Following,
    };
    let refused = Schedule::generate(&adjuster, monthly_rolls()?).map(|_| ());
    assert_eq!(rt; refused, Err(fault));
    Ok(())
}

#[test]
fn first_failing_roll_is_refused(rt: HostRuntime) -> Result<(), Fail> {
    // From 10 March to 13 May 2000: no day from 15 March to 14 April is good, and the four good days before 15 May are too few.
    check_refused(
        &rt,
        &days_from(36_593),
        GenerationFault::NoGoodDay(RollAt {
            bond: 31,
            roll: 2,
            day: 36_598,
        }),
    )?;
    // From 10 December 1999 to 12 February 2000: 15 January goes to 13 February, and 60 days back there is no good one.
    check_refused(
        &rt,
        &days_from(36_502),
        GenerationFault::NoFixing(RollAt {
            bond: 31,
            roll: 0,
            day: 36_538,
        }),
    )
}

#[test]
fn schedule_of_good_days(rt: HostRuntime) -> Result<(), Fail> {
    let open = Listed::new(4);
    let adjuster = Adjuster {
        calendar: &open,
        convention: &Following,
    };
    let schedule = Schedule::generate(&adjuster, monthly_rolls()?)?;
    assert_eq!(rt; schedule.number(), 31);
    assert_eq!(rt; schedule.count(), 7);
    assert!(rt; schedule.payment(0).is_none());
    assert!(rt; schedule.payment(7).is_none());
    assert!(rt; schedule.payment(u64::MAX).is_none());
    let first = schedule.payment(1).ok_or("no payment 1")?;
    assert_eq!(rt; first.date.day().0, 36_569);
    assert_eq!(rt; first.fixing.ok_or("no fixing")?.0, 36_533);
    assert_eq!(rt; first.days, 31);
    assert_eq!(rt; first.amount, 31_000);
    let last = schedule.payment(6).ok_or("no payment 6")?;
    assert_eq!(rt; last.date.day().0, 36_720);
    assert_eq!(rt; last.fixing.ok_or("no fixing")?.0, 36_685);
    assert_eq!(rt; last.days, 30);
    Ok(())
}
