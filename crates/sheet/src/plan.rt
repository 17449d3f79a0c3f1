ghost use Rattle.std.specs.Prelude.{◌≡◌, ℕ, ◌*◌, ◌≤◌, true, map, length, take, Some, IfOk};
ghost use Rattle.std.specs.Option.{option_map};
ghost use Rattle.std.specs.Result.{result_map_both};
ghost use Rattle.faults.specs.Refusals.{generation_refusal};
ghost use Rattle.calendars.specs.Codes.{good};
ghost use Rattle.generation.specs.Granting.{each_granted};
ghost use Rattle.generation.specs.Retrying.{retried};
ghost use Rattle.generation.specs.Views.{number_of};
ghost use Rattle.sheet.specs.KeptBonds.{kept, all_live};
ghost use Rattle.changes.specs.Changes.{seen_place, written, written_count};
ghost use Rattle.sheet.specs.Notices.{counted, changes};
ghost use Rattle.sheet.specs.Plans.{SameBonds, both};

use calendars::Calendar;
use changes::{Change, Revision, Turn};
use conventions::{Adjuster, Convention};
use dates::Day;
use faults::GenerationFault;
use generation::Schedule;

// As `roll_total` of a sheet but for the summand: one for both would take that as a closure, and a bound on it.
/// How many rolls in some places stand on one of the days.
pub(crate) fn counted<C: Convention>(
    places: &[Option<Schedule>],
    convention: &C,
    days: &[Day],
) -> u32
    requires { length places.now ≤ 32 }
    ensures { result ≡ counted (C.Convention.tries convention.now) (map number_of days.now) (kept places.now) }
{
    places
        .iter()
        .flatten()
        .map(|schedule| schedule.counted(convention, days))
        .sum()
}

/// The places as they would be on a calendar that has changed on these days, or the refusal of the first failing roll.
// The parts of a sheet and not the sheet: once a notice has changed the calendar, its places are not yet what generation gives.
pub(crate) fn retry_places<K: Calendar, C: Convention>(
    places: [Option<Schedule>; 32],
    count: usize,
    adjuster: &Adjuster<'_, K, C>,
    days: &[Day],
) -> Result<[Option<Schedule>; 32], GenerationFault>
    requires few { count ≤ 32 }
    requires long { length places ≡ 32 }
    requires live { all_live (take count places) ≡ true }
    ensures is { result_map_both (λ ps. kept (take count ps)) generation_refusal result ≡ each_granted (retried (λ d. good (K.Calendar.codes adjuster.now.calendar.now d)) (C.Convention.tries adjuster.now.convention.now) (map number_of days.now)) (kept (take count places)) }
    ensures same { IfOk result (λ ps. SameBonds count places ps) }
{
    let mut anew = places;
    let live = &mut anew[..count];
    // A test in the loop: of places that `iter_mut().flatten()` lends, a proof knows nothing afterwards.
    for place in live.iter_mut() {
        if let Some(schedule) = place {
            if schedule.counted(adjuster.convention, days) > 0 {
                *schedule = schedule.retry(adjuster, days)?;
            }
        }
    }
    Ok(anew)
}

/// The schedule in a place and the one that takes its place, if there are two.
fn revision_of<'a>(was: &'a Option<Schedule>, becomes: &'a Option<Schedule>) -> Option<Revision<'a>>
    ensures { option_map (λ r. (r.old.now, r.new.now)) result ≡ both was.now becomes.now }
{
    let old = was.as_ref()?;
    let new = becomes.as_ref()?;
    Some(Revision { old, new })
}

/// How many payments alter from the schedules in some places to those that take their places.
fn altered_count(old: &[Option<Schedule>], new: &[Option<Schedule>]) -> usize
    requires few { (length old.now ≤ 32) × (length new.now ≡ length old.now) }
    requires live { (all_live old.now ≡ true) × (all_live new.now ≡ true) }
    ensures is { (before after : ℕ → ℕ) → result ≡ length (changes before after (kept old.now) (kept new.now)) }
    ensures bound { result ≤ 3168 }
{
    let mut count = 0;
    for (was, becomes) in old.iter().zip(new) {
        if let Some(revision) = revision_of(was, becomes) {
            count += revision.count();
        }
    }
    count
}

/// Writes these payments into a list, bond after bond; nothing if they do not fit.
pub(crate) fn write_changes<K: Calendar, T: Calendar>(
    old: &[Option<Schedule>],
    new: &[Option<Schedule>],
    turn: &Turn<'_, K, T>,
    list: &mut [Option<Change>],
) -> Option<usize>
    requires few { (length old.now ≤ 32) × (length new.now ≡ length old.now) }
    requires live { (all_live old.now ≡ true) × (all_live new.now ≡ true) }
    ensures answer { result ≡ written_count (map Some (changes (K.Calendar.codes turn.now.before.now) (T.Calendar.codes turn.now.after.now) (kept old.now) (kept new.now))) (map seen_place list.old) }
    ensures list { map seen_place list.new ≡ written (map Some (changes (K.Calendar.codes turn.now.before.now) (T.Calendar.codes turn.now.after.now) (kept old.now) (kept new.now))) (map seen_place list.old) }
{
    if altered_count(old, new) > list.len() {
        return None;
    }
    let mut n = 0;
    for (was, becomes) in old.iter().zip(new) {
        if let Some(revision) = revision_of(was, becomes) {
            // They fit, as the count says; so the proof that this never stops.
            n += revision.write(turn, &mut list[n..]).unwrap();
        }
    }
    Some(n)
}
