ghost use Rattle.std.specs.Prelude.{◌≡◌, ℕ, ◌<◌, true, Ok, Err};
ghost use Rattle.faults.specs.Refusals.{told, calendar_refusal};
ghost use Rattle.dates.specs.Civil.{day_answer, civil_answer, earlier};

use crate::civil_date::CivilDate;
use crate::day::Day;
use crate::gregorian::{is_leap, month_len, month_start, new_year, spot_of};
use faults::CalendarFault;

impl CivilDate {
    /// The day of a date from 1900 to 2199 that exists; any other is refused.
    #[inline]
    pub fn day(self) -> Result<Day, CalendarFault>
        ensures is { told calendar_refusal result ≡ day_answer self }
        ensures back { (d : Day) → result ≡ Ok d → civil_answer d ≡ Ok self }
        ensures order { (c : CivilDate) (d e : Day) → result ≡ Ok d → day_answer c ≡ Ok e → earlier self c ≡ true → d.0 < e.0 }
    {
        // By year and month, and not by a `Month`, which would have to be taken apart again.
        if !(1900..=2199).contains(&self.year) || !(1..=12).contains(&self.month) || self.day < 1 {
            return Err(CalendarFault::BadEntry);
        }
        let long = is_leap(self.year);
        let month = u32::from(self.month - 1);
        if u32::from(self.day) > month_len(long, month) {
            return Err(CalendarFault::BadEntry);
        }
        let first = new_year(u32::from(self.year - 1900)) + month_start(long, month);
        Ok(Day(first + u32::from(self.day - 1)))
    }
}

impl Day {
    /// The civil date of a day.
    #[inline]
    pub fn civil_date(self) -> Result<CivilDate, CalendarFault>
        ensures is { told calendar_refusal result ≡ civil_answer self }
        ensures back { (c : CivilDate) → result ≡ Ok c → day_answer c ≡ Ok self }
    {
        let Day(number) = self.checked()?;
        let spot = spot_of(number);
        // Narrowed by `as`: the bounds of a spot leave no error that `try_from` could give.
        Ok(CivilDate {
            year: 1900 + spot.year as u16,
            month: spot.month as u8 + 1,
            day: spot.place as u8 + 1,
        })
    }
}
