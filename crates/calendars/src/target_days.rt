ghost use Rattle.std.specs.Prelude.{◌≡◌, Ok};
ghost use Rattle.std.specs.Result.{result_map_both};
ghost use Rattle.faults.specs.Refusals.{calendar_refusal};
ghost use Rattle.calendars.specs.Rules.{held};
ghost use Rattle.calendars.specs.Target.{target_codes, target_yearly, target_easter, target_code};

use crate::easter_offset::{EasterOffset, EasterRule};
use crate::joint::Joint;
use crate::month_day::{MonthDay, Yearly};
use crate::rule::Rule;
use crate::weekly::Weekly;
use faults::CalendarFault;

/// The closing days of TARGET: weekends, four dates of every year, Good Friday and Easter Monday.
pub type Target = Joint<Weekly, Joint<Yearly, EasterRule>>;

#[tactic(auto, unfolding(dates::specs::Years::month_len))]
fn yearly_holidays() -> Result<Yearly, CalendarFault>
    ensures { result_map_both held calendar_refusal result ≡ Ok target_yearly }
{
    let mut rule = Rule::new(2);
    rule.add(MonthDay { month: 1, day: 1 })?;
    rule.add(MonthDay { month: 5, day: 1 })?;
    rule.add(MonthDay { month: 12, day: 25 })?;
    rule.add(MonthDay { month: 12, day: 26 })?;
    Ok(rule)
}

fn easter_holidays() -> Result<EasterRule, CalendarFault>
    ensures { result_map_both held calendar_refusal result ≡ Ok target_easter }
{
    let mut rule = Rule::new(3);
    rule.add(EasterOffset { days: -2 })?;
    rule.add(EasterOffset { days: 1 })?;
    Ok(rule)
}

/// The calendar itself; it is never refused.
pub fn target_calendar() -> Result<Target, CalendarFault>
    ensures { result_map_both target_codes calendar_refusal result ≡ Ok target_code }
{
    let weekly = Weekly::new([false, false, false, false, false, true, true], 1);
    Ok(Joint::new(weekly, Joint::new(yearly_holidays()?, easter_holidays()?)))
}
