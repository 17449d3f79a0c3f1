ghost use Rattle.std.specs.Prelude.{◌≡◌};
ghost use Rattle.calendars.specs.Entries.{offset_possible, offset_same, offset_closes};

use crate::rule::{Entry, Rule};
use dates::Day;
use faults::CalendarFault;

/// A number of days from Easter Sunday, before it if below 0, as an entry of the Easter rule; any number fits.
#[derive(Clone, Copy, Default, PartialEq)]
pub struct EasterOffset {
    pub days: i32,
}

/// The Easter rule: up to 8 offsets from -60 to 60 days.
pub type EasterRule = Rule<EasterOffset, 8>;

impl Entry for EasterOffset {
    ghost possible = { offset_possible };

    ghost clashes = { offset_same };

    ghost closes = { offset_closes };

    fn is_possible(&self) -> bool {
        (-60..=60).contains(&self.days)
    }

    fn clashes_with(&self, other: &EasterOffset) -> bool {
        self == other
    }

    fn closes_on(&self, day: Day) -> Result<bool, CalendarFault> {
        let easter = day.easter()?;
        Ok(i64::from(day.0) - i64::from(easter.0) == i64::from(self.days))
    }
}
