ghost use Rattle.std.specs.Prelude.{◌≡◌, ℕ, ◌≤◌};
ghost use Rattle.faults.specs.Refusals.{told, calendar_refusal};
ghost use Rattle.dates.specs.Civil.{asked};
ghost use Rattle.calendars.specs.Codes.{good};

use dates::Day;
use faults::CalendarFault;

/// What a calendar is asked; a day after 31 December 2199 is refused with 10, and asking alters nothing.
pub trait Calendar {
    /// Its meaning: the code of each day, 0 where it is good, else the layer, 1 to 15, that closes it.
    ghost codes: { Self → ℕ → ℕ };

    /// No code is above 15.
    ghost small: { (s : Self) (d : ℕ) → codes s d ≤ 15 };

    /// The code of a day.
    // A number, since the rules define the code as one: it is printed, and packed in four bits.
    fn code(&self, day: Day) -> Result<u8, CalendarFault>
        ensures { told calendar_refusal result ≡ asked day.0 (codes self.now day.0) };

    /// Whether a day's code says that it is good.
    fn is_good(&self, day: Day) -> Result<bool, CalendarFault>
        ensures { told calendar_refusal result ≡ asked day.0 (good (codes self.now day.0)) }
    {
        Ok(self.code(day)? == 0)
    }
}
