ghost use Rattle.std.specs.Prelude.{◌≡◌, ◌<◌, ◌≤◌, true, cond, length, take, Some, None};
ghost use Rattle.std.specs.Option.{IfSome};
ghost use Rattle.tables.specs.Tables.{rising, place, found, insertable, held, after_insert, after_remove, after_replace};
ghost use Rattle.tables.specs.TableLaws.{Within, HeldLaw, PutLaw, OutLaw};

use crate::keyed::Keyed;

// The places and their count are lent for each call: the caller keeps the array and the count as fields of its own.
// A struct of both would be built for one call, and the count read back from it afterwards.
// A bare `bool` tells whether a change was made, as in std's sets: each caller names its own refusal.

/// Where a key is among records by rising key, or else where it belongs.
pub fn find<R: Keyed>(records: &[R], key: u64) -> Result<usize, usize>
    ensures is { result ≡ found R.Keyed.key key records.now }
    ensures bound { Within (length records.now) result }
    ensures law { rising R.Keyed.key 0 records.now ≡ true → HeldLaw R.Keyed.key records.now }
{
    // A linear search: the promise is for any list, and where the keys do not rise a binary search answers otherwise.
    match records.iter().position(|record| record.key() >= key) {
        Some(at) if records[at].key() == key => Ok(at),
        Some(at) => Err(at),
        None => Err(records.len()),
    }
}

/// Where a key is held among the first `count` places.
fn place_of<R: Keyed>(places: &[R], count: usize, key: u64) -> Option<usize>
    ensures is { result ≡ cond (held R.Keyed.key count key places.now) (Some (place R.Keyed.key key (take count places.now))) None }
    ensures bound { IfSome result (λ at. (at < count) × (count ≤ length places.now)) }
{
    find(places.get(..count)?, key).ok()
}

/// Puts one more record among the first `count` at its key's place; not if there is no place free, or its key is held.
#[tactic(auto, using(crate::proofs::Afters::inserted))]
pub fn insert<R: Keyed>(places: &mut [R], count: usize, record: R) -> bool
    ensures answer { result ≡ insertable R.Keyed.key count «record» places.old }
    ensures after { places.new ≡ after_insert R.Keyed.key count «record» places.old }
    ensures law { rising R.Keyed.key 0 (take count places.old) ≡ true → PutLaw R.Keyed.key «record» (take count places.old) }
{
    if count >= places.len() {
        return false;
    }
    let Err(at) = find(&places[..count], record.key()) else {
        return false;
    };
    places.copy_within(at..count, at + 1);
    places[at] = record;
    true
}

/// Takes the record of a key out of the first `count`; not if the key is not held.
#[tactic(auto, using(crate::proofs::Afters::removed))]
pub fn remove<R: Keyed>(places: &mut [R], count: usize, key: u64) -> bool
    ensures answer { result ≡ held R.Keyed.key count key places.old }
    ensures after { places.new ≡ after_remove R.Keyed.key count key places.old }
    ensures law { rising R.Keyed.key 0 (take count places.old) ≡ true → OutLaw R.Keyed.key key (take count places.old) }
{
    let Some(place) = place_of(places, count, key) else {
        return false;
    };
    places.copy_within(place + 1..count, place);
    true
}

/// Puts a record instead of the one of its key among the first `count`; not if the key is not held.
#[tactic(auto, using(crate::proofs::Afters::replaced))]
pub fn replace<R: Keyed>(places: &mut [R], count: usize, record: R) -> bool
    ensures answer { result ≡ held R.Keyed.key count (R.Keyed.key «record») places.old }
    ensures after { places.new ≡ after_replace R.Keyed.key count «record» places.old }
{
    let Some(place) = place_of(places, count, record.key()) else {
        return false;
    };
    places[place] = record;
    true
}
