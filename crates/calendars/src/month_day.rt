ghost use Rattle.std.specs.Prelude.{◌≡◌};
ghost use Rattle.calendars.specs.Entries.{month_day_possible, month_day_same, month_day_closes};

use crate::rule::{Entry, Rule};
use dates::{CivilDate, Day};
use faults::CalendarFault;

/// A date of every year, as an entry of the yearly rule; any numbers fit.
#[derive(Clone, Copy, Default, PartialEq)]
pub struct MonthDay {
    pub month: u8,
    pub day: u8,
}

/// The yearly rule: at most 16 such dates.
pub type Yearly = Rule<MonthDay, 16>;

impl Entry for MonthDay {
    ghost possible = { month_day_possible };

    ghost clashes = { month_day_same };

    ghost closes = { month_day_closes };

    /// A leap year has every date.
    fn is_possible(&self) -> bool {
        let date = CivilDate {
            year: 2000,
            month: self.month,
            day: self.day,
        };
        date.day().is_ok()
    }

    fn clashes_with(&self, other: &MonthDay) -> bool {
        self == other
    }

    fn closes_on(&self, day: Day) -> Result<bool, CalendarFault> {
        let CivilDate { month, day, .. } = day.civil_date()?;
        Ok(*self == MonthDay { month, day })
    }
}
