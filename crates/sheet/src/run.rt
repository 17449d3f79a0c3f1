ghost use Rattle.std.specs.Prelude.{◌≡◌, map, take, IfOk};
ghost use Rattle.faults.specs.Refusals.{told, refusal};
ghost use Rattle.amendments.specs.Meanings.{meaning};
ghost use Rattle.changes.specs.Changes.{seen_place};
ghost use Rattle.sheet.specs.Steps.{places_written, Outcome as ToldOutcome};
ghost use Rattle.sheet.specs.EveryUse.{NeverDrifts};
ghost use Rattle.sheet.specs.SheetViews.{kept_by, seen_sheet};
ghost use Rattle.sheet.specs.RunViews.{seen_outcome};

use crate::call::{Answer, Call};
use crate::sheet::Sheet;
use amendments::Amendable;
use changes::Change;
use conventions::Convention;
use faults::Fault;
use std::alloc::{AllocError, Global};

/// What came of a call.
#[derive(Drop)]
pub struct Outcome {
    pub answer: Result<Answer, Fault>,
    /// The places of the list that it wrote.
    pub changes: Vec<Option<Change>>,
}

/// A sheet after a list of calls, and what came of each.
#[derive(Drop)]
pub struct Run<P: Amendable, C: Convention> {
    pub sheet: Sheet<P, C>,
    pub outcomes: Vec<Outcome>,
}

/// How many places of its list a call has written.
fn places_written(answer: Result<Answer, Fault>) -> usize
    ensures { result ≡ places_written (told refusal answer) }
{
    match answer {
        Ok(Answer::Amended(_, counts)) => counts.changes,
        _ => 0,
    }
}

/// An answer with the places that were written for it.
fn outcome_of(
    heap: Global,
    answer: Result<Answer, Fault>,
    list: &[Option<Change>],
) -> Result<Outcome, AllocError>
    ensures { IfOk result (λ o. ◌≡◌ {A = ToldOutcome} (seen_outcome o) (record { answer = told refusal answer; changes = take (places_written (told refusal answer)) (map seen_place list.now) })) }
{
    let mut changes = Vec::new(heap);
    changes.extend_from_slice(&list[..places_written(answer).min(list.len())])?;
    Ok(Outcome { answer, changes })
}

/// Opens a sheet without bonds, and makes calls on it, one after another, with one list for all of them.
pub fn make_calls<P: Amendable + Drop, C: Convention>(
    heap: Global,
    calendar: P,
    convention: C,
    calls: &[Call],
    list: &mut [Option<Change>],
) -> Result<Run<P, C>, AllocError>
    ensures never_drifts { IfOk result (λ r. NeverDrifts (C.Convention.tries convention) (meaning (P.Calendar.codes calendar) (P.Amendable.rest calendar)) (map seen_place list.old) calls.now (map seen_outcome r.outcomes.items) (kept_by r.sheet) (seen_sheet r.sheet).calendar (map seen_place list.new)) }
{
    let mut sheet = Sheet::new(calendar, convention);
    let mut outcomes = Vec::new(heap);
    for call in calls {
        let answer = sheet.call(*call, list);
        outcomes.push(outcome_of(heap, answer, list)?)?;
    }
    Ok(Run { sheet, outcomes })
}
