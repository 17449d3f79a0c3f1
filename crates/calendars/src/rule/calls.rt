ghost use Rattle.std.specs.Prelude.{◌≡◌, ℕ, ◌≤◌, Bool, []};
ghost use Rattle.faults.specs.Refusals.{told, calendar_refusal};
ghost use Rattle.dates.specs.Civil.{asked};
ghost use Rattle.calendars.specs.Codes.{layer_of, closing_small};
ghost use Rattle.calendars.specs.Rules.{held, any, add_answer, after_add, rule_code};

use crate::calendar::Calendar;
use crate::layer::Layer;
use crate::rule::{Entry, Rule};
use dates::Day;
use faults::CalendarFault;

impl<E: Entry, const N: usize> Rule<E, N> {
    /// A rule without entries.
    pub fn new(layer: u8) -> Rule<E, N>
        ensures { held result ≡ record { entries = []; layer = layer_of layer } }
    {
        Rule {
            entries: [E::default(); N],
            count: 0,
            layer: Layer::new(layer),
        }
    }

    /// The entries that are held, in the order in which they came.
    fn held(&self) -> &[E]
        ensures is { result.now ≡ (held self.now).entries }
    {
        &self.entries[..self.count]
    }

    /// Whether an entry that is held clashes with this one.
    fn clashes_with_held(&self, new: &E) -> bool
        ensures { result ≡ any (λ e. E.Entry.clashes e new.now) (held self.now).entries }
    {
        self.held().iter().any(|held| held.clashes_with(new))
    }

    /// Whether some entry closes the day.
    #[tactic(auto, using(crate::proofs::Scans::any_is))]
    fn is_closed(&self, day: Day) -> Result<bool, CalendarFault>
        ensures { told calendar_refusal result ≡ asked day.0 (any (λ e. E.Entry.closes e day.0) (held self.now).entries) }
    {
        let day = day.checked()?;
        for held in self.held() {
            if held.closes_on(day)? {
                return Ok(true);
            }
        }
        Ok(false)
    }

    /// One entry more; a refusal leaves the rule as it was.
    pub fn add(&mut self, entry: E) -> Result<(), CalendarFault>
        ensures answer { told calendar_refusal result ≡ add_answer N E.Entry.possible E.Entry.clashes (held self.old).entries entry }
        ensures after { held self.new ≡ after_add (told calendar_refusal result) (held self.old) entry }
    {
        if self.count == N {
            return Err(CalendarFault::RuleFull);
        }
        if !entry.is_possible() || self.clashes_with_held(&entry) {
            return Err(CalendarFault::BadEntry);
        }
        self.entries[self.count] = entry;
        self.count += 1;
        Ok(())
    }
}

impl<E: Entry, const N: usize> Calendar for Rule<E, N> {
    ghost codes = { λ s. rule_code E.Entry.closes (held s).entries (held s).layer };

    ghost small = { λ s d. closing_small _ _ s.layer.within.1 };

    fn code(&self, day: Day) -> Result<u8, CalendarFault> {
        Ok(self.layer.code(self.is_closed(day)?))
    }
}
