use crate::date_examples::on;
use calendars::{Calendar, Joint, Listed, Weekly, target_calendar};
use dates::Day;
use faults::CalendarFault;
use std::test::Fail;

const WEEKEND: [bool; 7] = [false, false, false, false, false, true, true];

fn day_on(year: u16, month: u8, day: u8) -> Result<Day, CalendarFault> {
    on(year, month, day).day()
}

#[test]
fn target_codes(rt: HostRuntime) -> Result<(), Fail> {
    let target = target_calendar()?;
    assert_eq!(rt; target.code(day_on(2024, 3, 29)?), Ok(3));
    assert_eq!(rt; target.code(day_on(2024, 3, 30)?), Ok(1));
    assert_eq!(rt; target.code(day_on(2024, 4, 1)?), Ok(3));
    assert_eq!(rt; target.code(day_on(2024, 5, 1)?), Ok(2));
    assert_eq!(rt; target.code(day_on(2024, 12, 26)?), Ok(2));
    assert_eq!(rt; target.code(day_on(2024, 3, 28)?), Ok(0));
    assert_eq!(rt; target.is_good(day_on(2024, 3, 28)?), Ok(true));
    assert_eq!(rt; target.is_good(day_on(2024, 12, 25)?), Ok(false));
    assert_eq!(rt;
        target.code(Day(109_573)),
        Err(CalendarFault::DayAbove(109_573))
    );
    Ok(())
}

#[test]
fn layers_outside_count_as_15(rt: HostRuntime) {
    assert_eq!(rt; Weekly::new(WEEKEND, 0).code(Day(5)), Ok(15));
    assert_eq!(rt; Weekly::new(WEEKEND, 16).code(Day(5)), Ok(15));
    assert_eq!(rt; Weekly::new(WEEKEND, 15).code(Day(5)), Ok(15));
    assert_eq!(rt; Weekly::new(WEEKEND, 7).code(Day(5)), Ok(7));
    assert_eq!(rt; Weekly::new(WEEKEND, 7).code(Day(4)), Ok(0));
}

#[test]
fn joint_prefers_the_left(rt: HostRuntime) -> Result<(), Fail> {
    let days = [Day(4), Day(5)];
    let mut listed = Listed::new(2);
    listed.replace(&days)?;
    let joint = Joint::new(Weekly::new(WEEKEND, 1), listed);
    assert_eq!(rt; joint.code(Day(3)), Ok(0));
    assert_eq!(rt; joint.code(Day(4)), Ok(2));
    assert_eq!(rt; joint.code(Day(5)), Ok(1));
    Ok(())
}

const RISING: [Day; 3] = [Day(0), Day(7), Day(109_572)];

const EQUAL: [Day; 3] = [Day(3), Day(8), Day(8)];

const FALLING: [Day; 2] = [Day(3), Day(2)];

const LATE: [Day; 1] = [Day(109_573)];

#[test]
fn listed_days(rt: HostRuntime) -> Result<(), Fail> {
    let mut listed = Listed::new(4);
    assert_eq!(rt; listed.code(Day(0)), Ok(0));
    listed.replace(&RISING)?;
    assert_eq!(rt; listed.replace(&EQUAL), Err(CalendarFault::NotRising(2)));
    assert_eq!(rt; listed.replace(&FALLING), Err(CalendarFault::NotRising(1)));
    assert_eq!(rt; listed.replace(&LATE), Err(CalendarFault::NotRising(0)));
    assert_eq!(rt; listed.code(Day(7)), Ok(4));
    assert_eq!(rt; listed.code(Day(109_572)), Ok(4));
    assert_eq!(rt; listed.code(Day(3)), Ok(0));
    assert_eq!(rt;
        listed.code(Day(109_573)),
        Err(CalendarFault::DayAbove(109_573))
    );
    Ok(())
}
