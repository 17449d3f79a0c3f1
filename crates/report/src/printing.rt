ghost use Rattle.std.specs.Prelude.{◌≡◌, ◌++◌, map, IfOk};
ghost use Rattle.std.specs.String.{string_bytes};
ghost use Rattle.faults.specs.Refusals.{refusal};
ghost use Rattle.changes.specs.Changes.{seen_place};
ghost use Rattle.sheet.specs.RunViews.{seen_outcome};
ghost use Rattle.report.specs.Printed.{refusal_line, change_lines, answer_lines, entry_lines};
ghost use Rattle.report.specs.ReportViews.{seen_entry};

use crate::entry::Entry;
use changes::Change;
use faults::Fault;
use sheet::Outcome;
use std::alloc::AllocError;

/// Prints a refusal.
pub(crate) fn print_refusal(out: &mut String, fault: Fault, line: usize) -> Result<(), AllocError>
    ensures { IfOk result (λ _. string_bytes out.new ≡ string_bytes out.old ++ refusal_line (refusal fault).number line) }
{
    let number = fault.number();
    writeln!(out, "no {number} {line}")
}

/// Prints a line for each change.
fn print_changes(out: &mut String, changes: &[Option<Change>]) -> Result<(), AllocError>
    ensures { IfOk result (λ _. string_bytes out.new ≡ string_bytes out.old ++ change_lines (map seen_place changes.now)) }
{
    for place in changes {
        if let Some(change) = place {
            writeln!(out, "{change}")?;
        }
    }
    Ok(())
}

/// Prints what became of a call.
fn print_outcome(out: &mut String, line: usize, outcome: &Outcome) -> Result<(), AllocError>
    ensures { IfOk result (λ _. string_bytes out.new ≡ string_bytes out.old ++ answer_lines line (seen_outcome outcome.now).answer (seen_outcome outcome.now).changes) }
{
    match outcome.answer {
        Err(fault) => print_refusal(out, fault, line),
        Ok(answer) => {
            writeln!(out, "{answer}")?;
            print_changes(out, outcome.changes.as_slice())
        }
    }
}

/// Prints what became of each entry.
pub(crate) fn print_entries(
    out: &mut String,
    entries: &[Entry],
    outcomes: &[Outcome],
) -> Result<(), AllocError>
    ensures { IfOk result (λ _. string_bytes out.new ≡ string_bytes out.old ++ entry_lines (map seen_entry entries.now) (map seen_outcome outcomes.now)) }
{
    // The outcomes that are still to be printed: one for each entry that asked for a call.
    let mut told = outcomes;
    for entry in entries {
        if let Err(fault) = entry.call {
            print_refusal(out, fault.into(), entry.line)?;
            continue;
        }
        let Some((outcome, rest)) = told.split_first() else {
            return Ok(());
        };
        print_outcome(out, entry.line, outcome)?;
        told = rest;
    }
    Ok(())
}
