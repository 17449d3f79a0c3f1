ghost use Rattle.std.specs.Prelude.{◌≡◌, ◌++◌, Ok, IfOk};
ghost use Rattle.std.specs.Result.{result_map_both};
ghost use Rattle.std.specs.String.{string_bytes};
ghost use Rattle.faults.specs.Refusals.{calendar_refusal};
ghost use Rattle.amendments.specs.Meanings.{meaning};
ghost use Rattle.notation.specs.InputLines.{parts_of};
ghost use Rattle.report.specs.Readings.{typed};
ghost use Rattle.report.specs.Program.{opening};
ghost use Rattle.report.specs.Printed.{entries_text, report_text};

use crate::entry::{calls_of, entries_of};
use crate::printing::{print_entries, print_refusal};
use amendments::{Amendable, AmendmentLayer};
use calendars::{Calendar, Target, target_calendar};
use conventions::{Convention, ModifiedFollowing};
use dates::Day;
use day_cache::DayCache;
use faults::{CalendarFault, TextFault};
use sheet::make_calls;
use std::alloc::{AllocError, Global};

/// The most bytes that an input may have.
pub const LONGEST_INPUT: usize = 65_536;

/// How many places the list of changes has.
const MOST_CHANGES: usize = 400;

/// The number of the amendment layer.
const AMENDED: u8 = 9;

/// The first day that the cache has at hand: 1 January 2023.
const CACHED_FROM: Day = Day(44_925);

/// The program's calendar: a day cache over an amendment layer over T.
type ProgramCalendar = DayCache<AmendmentLayer<Target>>;

/// The program's calendar before any notice; it is never refused.
fn program_calendar() -> Result<ProgramCalendar, CalendarFault>
    ensures { result_map_both (λ c. meaning (⟦<ProgramCalendar as Calendar>⟧.codes c) (⟦<ProgramCalendar as Amendable>⟧.rest c)) calendar_refusal result ≡ Ok opening }
{
    let target = target_calendar()?;
    Ok(DayCache::new(AmendmentLayer::new(target, AMENDED), CACHED_FROM))
}

/// Makes the calls that an input asks for, and prints what became of them.
fn answer(heap: Global, input: &[u8], out: &mut String) -> Result<(), AllocError>
    ensures { IfOk result (λ _. string_bytes out.new ≡ string_bytes out.old ++ entries_text (typed (parts_of input.now))) }
{
    let entries = entries_of(heap, input)?;
    let calls = calls_of(heap, entries.as_slice())?;
    let mut list = [None; MOST_CHANGES];
    let calendar = program_calendar().unwrap();
    let run = make_calls(
        heap,
        calendar,
        ModifiedFollowing,
        calls.as_slice(),
        &mut list,
    )?;
    print_entries(out, entries.as_slice(), run.outcomes.as_slice())
}

/// The text that is printed for an input.
pub fn report(heap: Global, input: &[u8]) -> Result<String, AllocError>
    ensures { IfOk result (λ text. string_bytes text ≡ report_text input.now) }
{
    let mut out = String::new(heap);
    let letter = ModifiedFollowing::LETTER;
    writeln!(out, "convention {letter}")?;
    if input.len() > LONGEST_INPUT {
        print_refusal(&mut out, TextFault::TooLong.into(), 0)?;
    } else {
        answer(heap, input, &mut out)?;
    }
    Ok(out)
}
