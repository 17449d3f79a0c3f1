use calendars::{Calendar, EasterOffset, EasterRule, MonthDay, Rule, Yearly};
use dates::CivilDate;
use faults::CalendarFault;
use std::test::Fail;

#[test]
fn leap_day_counts_in_leap_years(rt: HostRuntime) -> Result<(), Fail> {
    let mut rule: Yearly = Rule::new(2);
    rule.add(MonthDay { month: 2, day: 29 })?;
    let leap = CivilDate {
        year: 2024,
        month: 2,
        day: 29,
    }
    .day()?;
    let march = CivilDate {
        year: 2023,
        month: 3,
        day: 1,
    }
    .day()?;
    assert_eq!(rt; rule.code(leap), Ok(2));
    assert_eq!(rt; rule.code(march), Ok(0));
    Ok(())
}

#[test]
fn yearly_entries(rt: HostRuntime) -> Result<(), Fail> {
    let mut rule: Yearly = Rule::new(2);
    assert_eq!(rt;
        rule.add(MonthDay { month: 2, day: 30 }),
        Err(CalendarFault::BadEntry)
    );
    assert_eq!(rt;
        rule.add(MonthDay { month: 13, day: 1 }),
        Err(CalendarFault::BadEntry)
    );
    assert_eq!(rt;
        rule.add(MonthDay { month: 4, day: 0 }),
        Err(CalendarFault::BadEntry)
    );
    for day in 1..17u8 {
        rule.add(MonthDay { month: 1, day })?;
        if day == 1 {
            assert_eq!(rt;
                rule.add(MonthDay { month: 1, day }),
                Err(CalendarFault::BadEntry)
            );
        }
    }
    assert_eq!(rt;
        rule.add(MonthDay { month: 2, day: 1 }),
        Err(CalendarFault::RuleFull)
    );
    assert_eq!(rt;
        rule.add(MonthDay { month: 2, day: 30 }),
        Err(CalendarFault::RuleFull)
    );
    Ok(())
}

#[test]
fn easter_entries(rt: HostRuntime) -> Result<(), Fail> {
    let mut rule: EasterRule = Rule::new(3);
    assert_eq!(rt;
        rule.add(EasterOffset { days: -61 }),
        Err(CalendarFault::BadEntry)
    );
    assert_eq!(rt;
        rule.add(EasterOffset { days: 61 }),
        Err(CalendarFault::BadEntry)
    );
    for days in [-60, 60, -2, 1, 0, 39, 49, 50] {
        rule.add(EasterOffset { days })?;
    }
    assert_eq!(rt;
        rule.add(EasterOffset { days: 1 }),
        Err(CalendarFault::RuleFull)
    );
    let ascension = CivilDate {
        year: 2024,
        month: 5,
        day: 9,
    }
    .day()?;
    assert_eq!(rt; rule.code(ascension), Ok(3));
    Ok(())
}
