ghost use Rattle.std.specs.Prelude.{◌≡◌};
ghost use Rattle.std.specs.Option.{option_map};
ghost use Rattle.calendars.specs.Codes.{good};
ghost use Rattle.dates.specs.declared.day.Day.{Day};
ghost use Rattle.generation.specs.Rolls.{fixing};

use calendars::{Calendar, is_good_day};
use conventions::Adjusted;
use dates::Day;

/// How many days before an adjusted day are looked at for its fixing.
const WINDOW: u32 = 60;

/// The `lag`-th good day among the 60 days before an adjusted day, counted back, if there are so many.
pub fn fixing_before<K: Calendar>(calendar: &K, adjusted: Adjusted, lag: u32) -> Option<Day>
    ensures { option_map (λ (d : Day). d.0) result ≡ fixing (λ d. good (K.Calendar.codes calendar.now d)) adjusted.number lag }
{
    let day = adjusted.day().0;
    let passed = lag.checked_sub(1)?;
    (1..=WINDOW)
        .map(|back| Day(day.saturating_sub(back)))
        .filter(|earlier| is_good_day(calendar, *earlier))
        // `as`: no `From` makes a usize of a u32.
        .nth(passed as usize)
}
