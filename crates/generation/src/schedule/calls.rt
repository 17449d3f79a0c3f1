ghost use Rattle.std.specs.Prelude.{◌≡◌, ◌+◌, ◌≤◌, length};
ghost use Rattle.std.specs.Option.{option_map as option_mapped};
ghost use Rattle.std.specs.Result.{result_map_both};
ghost use Rattle.faults.specs.Refusals.{generation_refusal};
ghost use Rattle.calendars.specs.Codes.{good};
ghost use Rattle.generation.specs.Schedules.{schedule_answer, FirstFault, seen_schedule};
ghost use Rattle.generation.specs.Payments.{payment_at, seen_payment};

use crate::generating::roll_of_bond;
use crate::payment::Payment;
use crate::schedule::Schedule;
use bonds::Rolls;
use calendars::Calendar;
use conventions::{Adjuster, Convention};
use faults::GenerationFault;

impl Schedule {
    /// Generates every roll of a bond; the first that fails is refused.
    pub fn generate<K: Calendar, C: Convention>(
        adjuster: &Adjuster<'_, K, C>,
        rolls: Rolls,
    ) -> Result<Schedule, GenerationFault>
        ensures is { result_map_both seen_schedule generation_refusal result ≡ schedule_answer (λ d. good (K.Calendar.codes adjuster.now.calendar.now d)) (C.Convention.tries adjuster.now.convention.now) rolls.terms }
        ensures first { FirstFault (λ d. good (K.Calendar.codes adjuster.now.calendar.now d)) (C.Convention.tries adjuster.now.convention.now) rolls.terms }
    {
        let count = rolls.count();
        let first = roll_of_bond(adjuster, &rolls, 0)?;
        let mut days = [first; 100];
        // By index: a roll is asked for by its number, a u32 from 1 on, which `enumerate` would give as
        // a usize from 0; and `array::try_from_fn` does not say that the refusal is the first.
        for i in 1..count {
            // `as`: no `From` makes a usize of a u32.
            days[i as usize] = roll_of_bond(adjuster, &rolls, i)?;
        }
        Ok(Schedule { rolls, days })
    }

    /// The bond's number.
    pub fn number(&self) -> u32
        ensures { result ≡ (seen_schedule self.now).terms.number }
    {
        self.rolls.number()
    }

    /// How many rolls it has.
    pub fn count(&self) -> u32
        ensures is { result ≡ length (seen_schedule self.now).days }
        ensures places { result ≡ self.now.rolls.inner + 2 }
        ensures bound { (2 ≤ result) × (result ≤ 100) }
    {
        self.rolls.count()
    }

    /// Payment k, from 1, if it has so many.
    pub fn payment(&self, k: u64) -> Option<Payment>
        ensures { option_mapped seen_payment result ≡ payment_at (seen_schedule self.now) k }
    {
        if !(1..u64::from(self.count())).contains(&k) {
            return None;
        }
        // Narrowed by `as`: k was tested to be at most 99.
        let at = k as usize;
        let terms = self.rolls.terms();
        Some(Payment::between(&terms, self.days[at - 1], self.days[at]))
    }
}
