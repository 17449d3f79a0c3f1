ghost use Rattle.std.specs.Prelude.{◌≡◌, ◌%◌};
ghost use Rattle.std.specs.Result.{result_map_both};
ghost use Rattle.faults.specs.Refusals.{calendar_refusal};
ghost use Rattle.dates.specs.Civil.{asked};
ghost use Rattle.dates.specs.Weekdays.{from_monday};

use crate::day::Day;
use faults::CalendarFault;

#[derive(Clone, Copy, PartialEq, Eq, Debug)]
pub enum Weekday {
    Monday,
    Tuesday,
    Wednesday,
    Thursday,
    Friday,
    Saturday,
    Sunday,
}

impl Day {
    /// The weekday; day 0 is a Monday.
    pub fn weekday(self) -> Result<Weekday, CalendarFault>
        ensures { result_map_both from_monday calendar_refusal result ≡ asked self.0 (self.0 % 7) }
    {
        let Day(number) = self.checked()?;
        Ok(match number % 7 {
            0 => Weekday::Monday,
            1 => Weekday::Tuesday,
            2 => Weekday::Wednesday,
            3 => Weekday::Thursday,
            4 => Weekday::Friday,
            5 => Weekday::Saturday,
            _ => Weekday::Sunday,
        })
    }
}
