ghost use Rattle.std.specs.Prelude.{◌≡◌, ◌&&◌, nat_le};
ghost use Rattle.calendars.specs.Codes.{good};

use crate::calendar::Calendar;
use dates::Day;

/// Whether a day is up to 31 December 2199 and good, for those who need no refusal.
pub fn is_good_day<K: Calendar>(calendar: &K, day: Day) -> bool
    ensures { result ≡ (nat_le day.0 109572 && good (K.Calendar.codes calendar.now day.0)) }
{
    calendar.is_good(day).unwrap_or(false)
}
