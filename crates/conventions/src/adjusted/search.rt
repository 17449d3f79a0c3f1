ghost use Rattle.std.specs.Prelude.{◌≡◌, ℕ, ◌≤◌, Ok};
ghost use Rattle.std.specs.Option.{option_map as option_mapped};
ghost use Rattle.std.specs.Result.{result_map_both};
ghost use Rattle.faults.specs.Refusals.{generation_refusal};
ghost use Rattle.calendars.specs.Codes.{good};
ghost use Rattle.conventions.specs.declared.adjusted.Adjusted.{Adjusted};
ghost use Rattle.conventions.specs.FirstGood.{first_good_answer, adjust_answer};

use crate::adjusted::Adjusted;
use crate::adjuster::Adjuster;
use crate::convention::Convention;
use crate::unadjusted::Unadjusted;
use calendars::{Calendar, is_good_day};
use dates::Day;
use faults::{GenerationFault, RollAt};

impl Adjusted {
    /// The day itself.
    pub fn day(self) -> Day
        ensures { result ≡ record { 0 = self.number } }
    {
        Day(self.number)
    }
}

impl<'a, K: Calendar, C: Convention> Adjuster<'a, K, C> {
    /// The first day tried that is good, if there is one.
    pub fn first_good(&self, u: Unadjusted) -> Result<Option<Adjusted>, GenerationFault>
        ensures { result_map_both (option_mapped (λ (a : Adjusted). a.number)) generation_refusal result ≡ first_good_answer (λ d. good (K.Calendar.codes self.now.calendar.now d)) (C.Convention.tries self.now.convention.now) u.0 }
    {
        let count = self.convention.count(u)?;
        // An index loop: a convention answers how many days it tries and which is the k-th.
        for k in 0..count {
            let day = self.convention.nth(u, k)?;
            if is_good_day(self.calendar, day) {
                return Ok(Some(Adjusted { number: day.0 }));
            }
        }
        Ok(None)
    }

    /// The adjusted day; refused where no day tried is good.
    pub fn adjust(&self, u: Unadjusted) -> Result<Adjusted, GenerationFault>
        ensures is { result_map_both (λ (a : Adjusted). a.number) generation_refusal result ≡ adjust_answer (λ d. good (K.Calendar.codes self.now.calendar.now d)) (C.Convention.tries self.now.convention.now) u.0 }
        ensures order { (a : Adjusted) (v b : ℕ) → result ≡ Ok a → u.0 ≤ v → adjust_answer (λ d. good (K.Calendar.codes self.now.calendar.now d)) (C.Convention.tries self.now.convention.now) v ≡ Ok b → a.number ≤ b }
    {
        let found = self.first_good(u)?;
        found.ok_or(GenerationFault::NoGoodDay(RollAt {
            bond: 0,
            roll: 0,
            day: u.0,
        }))
    }
}
