ghost use Rattle.std.specs.Prelude.{◌≡◌, ◌+◌, ◌<◌, ◌≤◌};
ghost use Rattle.faults.specs.Refusals.{told, calendar_refusal};
ghost use Rattle.dates.specs.Civil.{asked};
ghost use Rattle.dates.specs.Easter.{easter_after, easter_number, easter_answer, easter_of_day};

use crate::day::Day;
use crate::easter_table::AFTER;
use crate::gregorian::{is_leap, month_start, new_year, year_of};
use faults::CalendarFault;

/// The days from 21 March to Easter Sunday of the year 1900 + n.
fn days_after(n: u32) -> u8
    requires { n < 300 }
    ensures is { result ≡ easter_after (1900 + n) }
    ensures bound { result ≤ 35 }
{
    // `as`: there is no `From` of a u32 for a usize.
    AFTER[n as usize]
}

/// Easter Sunday of the year 1900 + n.
fn sunday(n: u32) -> Day
    requires { n < 300 }
    ensures { result ≡ record { 0 = easter_number (1900 + n) } }
{
    // Narrowed by `as`: a year's bound leaves no error that `try_from` could give.
    let march = new_year(n) + month_start(is_leap(1900 + n as u16), 2);
    Day(march + 20 + u32::from(days_after(n)))
}

/// Easter Sunday of a year from 1900 to 2199; any other year is refused.
pub fn easter_sunday(year: u16) -> Result<Day, CalendarFault>
    ensures { told calendar_refusal result ≡ easter_answer year }
{
    if !(1900..=2199).contains(&year) {
        return Err(CalendarFault::BadEntry);
    }
    Ok(sunday(u32::from(year - 1900)))
}

impl Day {
    /// Easter Sunday of the day's year.
    pub fn easter(self) -> Result<Day, CalendarFault>
        ensures { told calendar_refusal result ≡ asked self.0 (easter_of_day self.0) }
    {
        let Day(number) = self.checked()?;
        Ok(sunday(year_of(number)))
    }
}
