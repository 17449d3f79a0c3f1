ghost use Rattle.std.specs.Prelude.{◌≡◌, ◌+◌, ◌/◌, ◌%◌, ◌≤◌};
ghost use Rattle.std.specs.Option.{option_map as option_mapped};
ghost use Rattle.std.specs.Result.{result_map_both};
ghost use Rattle.faults.specs.Refusals.{calendar_refusal};
ghost use Rattle.dates.specs.Civil.{asked};
ghost use Rattle.dates.specs.Months.{first_of, len_of, cut_to, month_answer, later_answer, earlier_answer};
ghost use Rattle.dates.specs.MonthPlaces.{spot_of_place, spot_of_day};

use crate::day::Day;
use crate::gregorian::{is_leap, month_len, month_start, new_year, spot_of};
use crate::month::{Month, MonthPlace};
use faults::CalendarFault;

impl Month {
    /// A month of a year from 1900 to 2199; any other is refused.
    pub fn of(year: u16, month: u8) -> Result<Month, CalendarFault>
        ensures { result_map_both (λ m. m.index) calendar_refusal result ≡ month_answer year month }
    {
        if !(1900..=2199).contains(&year) || !(1..=12).contains(&month) {
            return Err(CalendarFault::BadEntry);
        }
        Ok(Month {
            index: u32::from(year - 1900) * 12 + u32::from(month - 1),
        })
    }

    /// The month's year.
    pub(crate) fn year(self) -> u16
        ensures is { result ≡ 1900 + self.index / 12 }
        ensures bound { result ≤ 2199 }
    {
        // Narrowed by `as`: a month's bound leaves no error that `try_from` could give.
        1900 + (self.index / 12) as u16
    }

    /// How many days the month has.
    pub fn length(self) -> u32
        ensures is { result ≡ len_of self.index }
        ensures bound { (28 ≤ result) × (result ≤ 31) }
    {
        month_len(is_leap(self.year()), self.index % 12)
    }

    /// The days before the month's first.
    pub(crate) fn first(self) -> u32
        ensures is { result ≡ first_of self.index }
        ensures bound { result ≤ 109800 }
    {
        new_year(self.index / 12) + month_start(is_leap(self.year()), self.index % 12)
    }

    /// The month's day at a place, from 0, cut to the month's length.
    pub fn day_at(self, place: u32) -> Day
        ensures { result ≡ record { 0 = cut_to self.index place } }
    {
        Day(self.first() + place.min(self.length() - 1))
    }

    /// The month `by` months later, unless that is after December 2199.
    pub fn later(self, by: u32) -> Option<Month>
        ensures { option_mapped (λ m. m.index) result ≡ later_answer self.index by }
    {
        if by >= 3600 - self.index {
            return None;
        }
        Some(Month {
            index: self.index + by,
        })
    }

    /// The month `by` months earlier, unless that is before January 1900.
    pub fn earlier(self, by: u32) -> Option<Month>
        ensures { option_mapped (λ m. m.index) result ≡ earlier_answer self.index by }
    {
        let index = self.index.checked_sub(by)?;
        Some(Month { index })
    }
}

impl Day {
    /// The month in which a day lies, and its place there.
    #[inline(always)]
    pub fn month_place(self) -> Result<MonthPlace, CalendarFault>
        ensures { result_map_both spot_of_place calendar_refusal result ≡ asked self.0 (spot_of_day self.0) }
    {
        let Day(number) = self.checked()?;
        let spot = spot_of(number);
        Ok(MonthPlace {
            month: Month {
                index: 12 * spot.year + spot.month,
            },
            place: spot.place,
        })
    }
}
