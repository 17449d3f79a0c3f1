use amendments::AmendmentLayer;
use calendars::{Listed, Target, Weekly, target_calendar};
use conventions::{Convention, Following, ModifiedFollowing};
use dates::Day;
use day_cache::DayCache;
use faults::CalendarFault;
use sheet::Sheet;

/// A calendar as the program has it.
pub(crate) type ProgramCalendar = DayCache<AmendmentLayer<Target>>;

pub(crate) fn program_calendar() -> Result<ProgramCalendar, CalendarFault> {
    let layer = AmendmentLayer::new(target_calendar()?, 9);
    Ok(DayCache::new(layer, Day(44_925)))
}

/// A sheet as the program has it.
pub(crate) type ProgramSheet = Sheet<ProgramCalendar, ModifiedFollowing>;

pub(crate) fn program_sheet() -> Result<ProgramSheet, CalendarFault> {
    Ok(Sheet::new(program_calendar()?, ModifiedFollowing))
}

/// A sheet over a calendar that has no good day.
pub(crate) fn closed_weeks_sheet<C: Convention>(convention: C) -> Sheet<AmendmentLayer<Weekly>, C> {
    let layer = AmendmentLayer::new(Weekly::new([true; 7], 1), 9);
    Sheet::new(layer, convention)
}

/// From 17 December 1999 to 12 February 2000.
pub(crate) fn winter() -> [Day; 58] {
    let mut days = [Day(0); 58];
    for (place, day) in days.iter_mut().zip(36_509..) {
        *place = Day(day);
    }
    days
}

/// A sheet over a calendar on which all is good but these days.
pub(crate) fn closed_winter_sheet<'a>(
    days: &'a [Day],
) -> Result<Sheet<AmendmentLayer<Listed<'a>>, Following>, CalendarFault> {
    let mut listed = Listed::new(4);
    listed.replace(days)?;
    Ok(Sheet::new(AmendmentLayer::new(listed, 9), Following))
}
