ghost use Rattle.std.specs.Prelude.{◌≡◌, map, IfOk};
ghost use Rattle.notation.specs.InputLines.{parts_of};
ghost use Rattle.report.specs.Readings.{typed, calls_of};
ghost use Rattle.report.specs.ReportViews.{seen_entry};

use faults::TextFault;
use notation::Lines;
use sheet::Call;
use std::alloc::{AllocError, Global};

/// An entry of the input: its line, and the call that it asks for, unless it has not the form of one.
#[derive(Clone, Copy)]
pub(crate) struct Entry {
    pub(crate) line: usize,
    pub(crate) call: Result<Call, TextFault>,
}

/// The entries of an input, in order.
pub(crate) fn entries_of(heap: Global, input: &[u8]) -> Result<Vec<Entry>, AllocError>
    ensures { IfOk result (λ v. map seen_entry v.items ≡ typed (parts_of input.now)) }
{
    let mut entries = Vec::new(heap);
    for line in Lines::of(input) {
        let Some(call) = line.read().transpose() else {
            continue;
        };
        entries.push(Entry {
            line: line.number(),
            call,
        })?;
    }
    Ok(entries)
}

/// The calls that entries ask for, in order.
pub(crate) fn calls_of(heap: Global, entries: &[Entry]) -> Result<Vec<Call>, AllocError>
    ensures { IfOk result (λ v. v.items ≡ calls_of (map seen_entry entries.now)) }
{
    let mut calls = Vec::new(heap);
    for entry in entries {
        if let Ok(call) = entry.call {
            calls.push(call)?;
        }
    }
    Ok(calls)
}
