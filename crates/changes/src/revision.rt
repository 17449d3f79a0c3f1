ghost use Rattle.std.specs.Prelude.{◌≡◌, ℕ, ◌≤◌, map, length, Some};
ghost use Rattle.std.specs.Option.{option_map};
ghost use Rattle.generation.specs.Schedules.{seen_schedule};
ghost use Rattle.changes.specs.Changes.{seen_pair, altered_payment, changes_in, written, written_count, seen_place};
ghost use Rattle.changes.specs.ChangeLaws.{ListedExactly};

use crate::change::Change;
use crate::turn::Turn;
use calendars::Calendar;
use generation::{Payment, Schedule};

/// A schedule of a bond, and the one that takes its place.
#[derive(Clone, Copy)]
pub struct Revision<'a> {
    pub old: &'a Schedule,
    pub new: &'a Schedule,
}

impl Revision<'_> {
    /// Payment k as it was and as it becomes, if both schedules have one and it alters.
    fn altered(&self, k: u32) -> Option<(Payment, Payment)>
        ensures { option_map seen_pair result ≡ altered_payment (seen_schedule self.now.old.now) (seen_schedule self.now.new.now) k }
    {
        let was = self.old.payment(u64::from(k))?;
        let becomes = self.new.payment(u64::from(k))?;
        (was != becomes).then_some((was, becomes))
    }

    /// How many payments alter.
    pub fn count(&self) -> usize
        ensures is { (before after : ℕ → ℕ) → result ≡ length (changes_in before after (seen_schedule self.now.old.now) (seen_schedule self.now.new.now)) }
        ensures bound { result ≤ 99 }
    {
        let altered = (1..self.old.count()).filter(|k| self.altered(*k).is_some());
        altered.count()
    }

    /// Writes the payments that alter into a list, from its start; nothing if they do not fit.
    // A free place holds None: no change can be made up to fill a list with.
    pub fn write<K: Calendar, T: Calendar>(
        &self,
        turn: &Turn<'_, K, T>,
        list: &mut [Option<Change>],
    ) -> Option<usize>
        ensures answer { result ≡ written_count (map Some (changes_in (K.Calendar.codes turn.now.before.now) (T.Calendar.codes turn.now.after.now) (seen_schedule self.now.old.now) (seen_schedule self.now.new.now))) (map seen_place list.old) }
        ensures list { map seen_place list.new ≡ written (map Some (changes_in (K.Calendar.codes turn.now.before.now) (T.Calendar.codes turn.now.after.now) (seen_schedule self.now.old.now) (seen_schedule self.now.new.now))) (map seen_place list.old) }
        ensures law { ListedExactly (K.Calendar.codes turn.now.before.now) (T.Calendar.codes turn.now.after.now) (seen_schedule self.now.old.now) (seen_schedule self.now.new.now) }
    {
        if self.count() > list.len() {
            return None;
        }
        // By index: a place is taken only where a payment alters, and a proof knows nothing of what is
        // written through an iterator that is asked for its next place so.
        let mut n = 0;
        for k in 1..self.old.count() {
            if let Some((was, becomes)) = self.altered(k) {
                list[n] = Some(turn.change(self.old.number(), k, was, becomes));
                n += 1;
            }
        }
        Some(n)
    }
}
