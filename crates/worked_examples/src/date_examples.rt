use dates::{CivilDate, Day, Month, Weekday, easter_sunday, is_leap};
use faults::CalendarFault;
use std::test::Fail;

pub(crate) fn on(year: u16, month: u8, day: u8) -> CivilDate {
    CivilDate { year, month, day }
}

#[test]
fn first_and_last_day(rt: HostRuntime) {
    assert_eq!(rt; on(1900, 1, 1).day(), Ok(Day(0)));
    assert_eq!(rt; on(2199, 12, 31).day(), Ok(Day(109_572)));
    assert_eq!(rt; Day(0).civil_date(), Ok(on(1900, 1, 1)));
    assert_eq!(rt; Day(109_572).civil_date(), Ok(on(2199, 12, 31)));
    assert_eq!(rt;
        Day(109_573).civil_date(),
        Err(CalendarFault::DayAbove(109_573))
    );
}

#[test]
fn leap_days(rt: HostRuntime) {
    assert_eq!(rt; on(1900, 2, 29).day(), Err(CalendarFault::BadEntry));
    assert_eq!(rt; on(2000, 2, 29).day(), Ok(Day(36_583)));
    assert_eq!(rt; on(2100, 2, 29).day(), Err(CalendarFault::BadEntry));
    assert_eq!(rt; Day(36_584).civil_date(), Ok(on(2000, 3, 1)));
    assert!(rt; !is_leap(1900) && is_leap(2000) && !is_leap(2100) && is_leap(2024));
}

#[test]
fn no_such_dates(rt: HostRuntime) {
    for date in [
        on(1899, 12, 31),
        on(2200, 1, 1),
        on(2024, 0, 1),
        on(2024, 13, 1),
        on(2024, 4, 31),
        on(2024, 4, 0),
    ] {
        assert_eq!(rt; date.day(), Err(CalendarFault::BadEntry));
    }
}

#[test]
fn weekdays(rt: HostRuntime) -> Result<(), Fail> {
    assert_eq!(rt; Day(0).weekday(), Ok(Weekday::Monday));
    assert_eq!(rt; on(2024, 3, 29).day()?.weekday(), Ok(Weekday::Friday));
    assert_eq!(rt; on(2024, 3, 31).day()?.weekday(), Ok(Weekday::Sunday));
    assert_eq!(rt;
        Day(109_573).weekday(),
        Err(CalendarFault::DayAbove(109_573))
    );
    Ok(())
}

#[test]
fn months(rt: HostRuntime) -> Result<(), Fail> {
    let february = Month::of(2024, 2)?;
    assert_eq!(rt; february.length(), 29);
    assert_eq!(rt; february.day_at(30), Day(45_349));
    assert_eq!(rt; Month::of(2100, 2)?.length(), 28);
    assert!(rt; Month::of(2200, 1).is_err() && Month::of(2024, 13).is_err());
    assert!(rt; february.later(2_110).is_some() && february.later(2_111).is_none());
    assert!(rt; february.earlier(1_489).is_some() && february.earlier(1_490).is_none());
    Ok(())
}

#[test]
fn easter(rt: HostRuntime) -> Result<(), Fail> {
    assert_eq!(rt; easter_sunday(1954), on(1954, 4, 18).day());
    assert_eq!(rt; easter_sunday(2024), on(2024, 3, 31).day());
    assert_eq!(rt; easter_sunday(2025), on(2025, 4, 20).day());
    assert_eq!(rt; on(2024, 12, 31).day()?.easter(), on(2024, 3, 31).day());
    assert_eq!(rt; easter_sunday(1899), Err(CalendarFault::BadEntry));
    assert_eq!(rt; easter_sunday(2200), Err(CalendarFault::BadEntry));
    Ok(())
}
