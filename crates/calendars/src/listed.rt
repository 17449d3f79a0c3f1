ghost use Rattle.std.specs.Prelude.{◌≡◌, ℕ, ◌<◌, ◌≤◌, [], length};
ghost use Rattle.faults.specs.Refusals.{told, calendar_refusal};
ghost use Rattle.calendars.specs.Codes.{layer_of, closing_small};
ghost use Rattle.calendars.specs.Lists.{held_days, listed_code, breaks, list_answer, after_replace};

use crate::calendar::Calendar;
use crate::layer::Layer;
use dates::Day;
use faults::CalendarFault;

// No `impl Model`, as for `Rule`.
/// A calendar that closes the days of a list, which it borrows.
#[derive(Drop)]
pub struct Listed<'a> {
    days: &'a [Day],
    layer: Layer,
}

/// Whether the day at place i lies too late, or not after the one before.
fn breaks_rise(days: &[Day], i: usize) -> bool
    requires { i < length days.now }
    ensures { result ≡ breaks days.now i }
{
    days[i].checked().is_err() || (i > 0 && days[i] <= days[i - 1])
}

/// Refuses at the first day that does not rise or lies too late.
#[tactic(auto, using(crate::proofs::Scans::first_more, crate::proofs::Scans::first_done))]
fn check_rising(days: &[Day]) -> Result<(), CalendarFault>
    ensures { told calendar_refusal result ≡ list_answer days.now }
{
    // An index loop: the refusal names the place, and each day is compared with the one before it.
    for i in 0..days.len() {
        if breaks_rise(days, i) {
            return Err(CalendarFault::NotRising(i));
        }
    }
    Ok(())
}

impl<'a> Listed<'a> {
    /// A calendar without days.
    pub fn new(layer: u8) -> Listed<'a>
        ensures { held_days result ≡ record { entries = []; layer = layer_of layer } }
    {
        Listed {
            days: &[],
            layer: Layer::new(layer),
        }
    }

    /// Another list in the place of the old one; a refusal leaves that in force.
    pub fn replace(&mut self, days: &'a [Day]) -> Result<(), CalendarFault>
        ensures answer { told calendar_refusal result ≡ list_answer days.now }
        ensures after { held_days self.new ≡ after_replace (held_days self.old) days.now }
    {
        check_rising(days)?;
        self.days = days;
        Ok(())
    }
}

impl Calendar for Listed<'_> {
    ghost codes = { λ s. listed_code s.days.now s.layer.number };

    ghost small = { λ s d. closing_small _ _ s.layer.within.1 };

    fn code(&self, day: Day) -> Result<u8, CalendarFault> {
        let day = day.checked()?;
        Ok(self.layer.code(self.days.contains(&day)))
    }
}
