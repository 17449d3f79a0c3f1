ghost use Rattle.std.specs.Prelude.{◌≡◌, ◌+◌, ◌<◌, ◌≤◌, map, length};
ghost use Rattle.std.specs.Result.{result_map_both};
ghost use Rattle.faults.specs.Refusals.{generation_refusal};
ghost use Rattle.calendars.specs.Codes.{good};
ghost use Rattle.generation.specs.Retrying.{inside, holds_one, counts, counted_in, retried_roll, retried, RetrySuffices};
ghost use Rattle.generation.specs.Schedules.{seen_schedule};
ghost use Rattle.generation.specs.Views.{number_of, seen_roll, seen_footing};

use crate::footing::{Footing, footing_of};
use crate::generating::roll_of_bond;
use crate::roll::Roll;
use crate::schedule::Schedule;
use calendars::Calendar;
use conventions::{Adjuster, Convention};
use dates::Day;
use faults::GenerationFault;

impl Footing {
    /// Whether it holds a day.
    pub fn holds(&self, day: Day) -> bool
        ensures { result ≡ inside (seen_footing self.now) day.0 }
    {
        (self.low..=self.high).contains(&day)
    }

    /// Whether it holds one of the days.
    pub fn holds_one(&self, days: &[Day]) -> bool
        ensures { result ≡ holds_one (seen_footing self.now) (map number_of days.now) }
    {
        days.iter().any(|day| self.holds(*day))
    }
}

// A notice's days stand beside a convention here and beside an adjuster there: a struct of the two would be made for one call.
// That roll i is one of the bond's is asked of two private calls alone: a type of places would only move it.
impl Schedule {
    /// Whether roll i stands on one of the days.
    fn counts<C: Convention>(&self, convention: &C, days: &[Day], i: u32) -> bool
        requires { i < self.now.rolls.inner + 2 }
        ensures { result ≡ counts (C.Convention.tries convention.now) (map number_of days.now) (seen_schedule self.now) i }
    {
        // `as`, here and below: no `From` makes a usize of a u32.
        let roll = self.days[i as usize];
        // First what is read off the roll: far from the days, no month has to be shifted and no convention asked.
        if !Footing::widest(roll).holds_one(days) {
            return false;
        }
        // A `let`: `is_some_and` round `is_ok_and` would nest two closures.
        let Some(u) = self.rolls.day(i) else {
            return false;
        };
        let kept = footing_of(convention, u, roll);
        kept.is_ok_and(|footing| footing.holds_one(days))
    }

    /// How many rolls stand on one of the days.
    pub fn counted<C: Convention>(&self, convention: &C, days: &[Day]) -> u32
        ensures is { result ≡ counted_in (C.Convention.tries convention.now) (map number_of days.now) (seen_schedule self.now) }
        ensures bound { result ≤ 100 }
    {
        let counted = (0..self.count()).filter(|i| self.counts(convention, days, *i));
        // Narrowed by `as`: they are at most 100.
        counted.count() as u32
    }

    /// Roll i anew if it stands on one of the days, else as it is.
    fn retry_roll<K: Calendar, C: Convention>(
        &self,
        adjuster: &Adjuster<'_, K, C>,
        days: &[Day],
        i: u32,
    ) -> Result<Roll, GenerationFault>
        requires { i < self.now.rolls.inner + 2 }
        ensures { result_map_both seen_roll generation_refusal result ≡ retried_roll (λ d. good (K.Calendar.codes adjuster.now.calendar.now d)) (C.Convention.tries adjuster.now.convention.now) (map number_of days.now) (seen_schedule self.now) i }
    {
        if self.counts(adjuster.convention, days, i) {
            return roll_of_bond(adjuster, &self.rolls, i);
        }
        Ok(self.days[i as usize])
    }

    /// The schedule on a calendar that has changed on these days: only the rolls that stand on one of them are tried anew.
    pub fn retry<K: Calendar, C: Convention>(
        &self,
        adjuster: &Adjuster<'_, K, C>,
        days: &[Day],
    ) -> Result<Schedule, GenerationFault>
        ensures is { result_map_both seen_schedule generation_refusal result ≡ retried (λ d. good (K.Calendar.codes adjuster.now.calendar.now d)) (C.Convention.tries adjuster.now.convention.now) (map number_of days.now) (seen_schedule self.now) }
        ensures suffices { RetrySuffices (λ d. good (K.Calendar.codes adjuster.now.calendar.now d)) (C.Convention.tries adjuster.now.convention.now) (map number_of days.now) (seen_schedule self.now) }
    {
        let mut anew = self.days;
        let kept = &mut anew[..self.count() as usize];
        for (i, place) in kept.iter_mut().enumerate() {
            *place = self.retry_roll(adjuster, days, i as u32)?;
        }
        Ok(Schedule {
            rolls: self.rolls,
            days: anew,
        })
    }
}
