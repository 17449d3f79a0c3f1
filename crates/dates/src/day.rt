ghost use Rattle.std.specs.Prelude.{◌≡◌, ◌≤◌, IfOk};
ghost use Rattle.faults.specs.Refusals.{told, calendar_refusal};
ghost use Rattle.dates.specs.Civil.{asked};

use faults::CalendarFault;

/// A number of days since 1 January 1900; those up to `LAST_DAY` are days of the calendars.
#[derive(Clone, Copy, PartialEq, Eq, PartialOrd, Ord, Debug)]
pub struct Day(pub u32);

/// 31 December 2199.
pub const LAST_DAY: u32 = 109_572;

impl Day {
    /// The day itself, unless it lies after 31 December 2199.
    pub fn checked(self) -> Result<Day, CalendarFault>
        ensures is { told calendar_refusal result ≡ asked self.0 self }
        ensures bound { IfOk result (λ d. d.0 ≤ 109572) }
    {
        if self.0 > LAST_DAY {
            return Err(CalendarFault::DayAbove(self.0));
        }
        Ok(self)
    }
}
