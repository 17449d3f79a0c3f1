ghost use Rattle.std.specs.Prelude.{◌≡◌, ◌+◌, ◌≤◌, [], ◌∷◌, length, if◌then◌else◌, Ok, nat_le};
ghost use Rattle.faults.specs.Refusals.{told, calendar_refusal, refusal, refuse};
ghost use Rattle.dates.specs.Civil.{asked};
ghost use Rattle.amendments.specs.Meanings.{meaning, is_entered};
ghost use Rattle.notices.specs.Notices.{calendar_after, calendar_answer, after_notice, in_calendar, to_close, to_open};
ghost use Rattle.notices.specs.NoticeLaws.{NoticeLaw};

use crate::notice::Notice;
use amendments::Amendable;
use calendars::Calendar;
use dates::Day;
use faults::{CalendarFault, Fault, SheetFault};

// Clauses name the calendar's meaning by its two members: a definition over these would take both, and be as long.
/// 12 unless the day is good, or unless it is closed, as it has to be.
fn check_state<P: Amendable>(calendar: &P, day: Day, good: bool) -> Result<(), Fault>
    ensures { told refusal result ≡ in_calendar (day.0 ∷ []) ((if good then to_close else to_open) (meaning (P.Calendar.codes calendar.now) (P.Amendable.rest calendar.now)) day.0 (Ok tt)) }
{
    if calendar.is_good(day)? != good {
        return Err(SheetFault::WrongState(day.0).into());
    }
    Ok(())
}

/// How many entries a day adds: 1 unless it is entered.
fn new_entries<P: Amendable>(calendar: &P, day: Day) -> Result<usize, CalendarFault>
    ensures { told calendar_refusal result ≡ asked day.0 (if is_entered (P.Amendable.rest calendar.now) day.0 then 0 else 1) }
{
    Ok(usize::from(!calendar.is_entered(day)?))
}

/// 14 if there would be more than 200 entries with so many more.
fn check_room<P: Amendable>(calendar: &P, more: usize) -> Result<(), Fault>
    requires { more ≤ 2 }
    ensures { told refusal result ≡ (if nat_le (length (P.Amendable.rest calendar.now).entered + more) 200 then Ok tt else refuse 14 []) }
{
    if calendar.entry_count() + more > 200 {
        return Err(CalendarFault::EntriesFull.into());
    }
    Ok(())
}

/// What is refused of declaring a day, which has to be good, or of cancelling it, which has to be closed.
fn check_one<P: Amendable>(calendar: &P, day: Day, good: bool) -> Result<(), Fault>
    ensures { told refusal result ≡ calendar_answer (meaning (P.Calendar.codes calendar.now) (P.Amendable.rest calendar.now)) (if good then Notice.Declare day else Notice.Cancel day) }
{
    check_state(calendar, day, good)?;
    check_room(calendar, new_entries(calendar, day)?)
}

/// What is refused of moving a closed day to a good one.
fn check_move<P: Amendable>(calendar: &P, from: Day, to: Day) -> Result<(), Fault>
    ensures { told refusal result ≡ calendar_answer (meaning (P.Calendar.codes calendar.now) (P.Amendable.rest calendar.now)) (Notice.Move from to) }
{
    let from = from.checked()?;
    let to = to.checked()?;
    if from == to {
        return Err(SheetFault::SameDay.into());
    }
    check_state(calendar, from, false)?;
    check_state(calendar, to, true)?;
    let first = new_entries(calendar, from)?;
    let second = new_entries(calendar, to)?;
    check_room(calendar, first + second)
}

/// 13 unless the day is entered.
fn check_withdraw<P: Amendable>(calendar: &P, day: Day) -> Result<(), Fault>
    ensures { told refusal result ≡ calendar_answer (meaning (P.Calendar.codes calendar.now) (P.Amendable.rest calendar.now)) (Notice.Withdraw day) }
{
    if !calendar.is_entered(day)? {
        return Err(CalendarFault::NotEntered(day.0).into());
    }
    Ok(())
}

/// Refuses a notice that the calendar does not allow.
pub fn check_notice<P: Amendable>(calendar: &P, notice: Notice) -> Result<(), Fault>
    ensures answer { told refusal result ≡ calendar_answer (meaning (P.Calendar.codes calendar.now) (P.Amendable.rest calendar.now)) notice }
    ensures law { NoticeLaw (meaning (P.Calendar.codes calendar.now) (P.Amendable.rest calendar.now)) notice }
{
    match notice {
        Notice::Declare(day) => check_one(calendar, day, true),
        Notice::Cancel(day) => check_one(calendar, day, false),
        Notice::Move(from, to) => check_move(calendar, from, to),
        Notice::Withdraw(day) => check_withdraw(calendar, day),
    }
}

/// Opens the first day and closes the second, as a move that is granted asks for.
fn open_then_close<P: Amendable>(calendar: &mut P, from: Day, to: Day) -> Result<(), CalendarFault>
    requires { Ok tt ≡ calendar_answer (meaning (P.Calendar.codes calendar.old) (P.Amendable.rest calendar.old)) (Notice.Move from to) }
    ensures answer { result ≡ Ok tt }
    ensures after { meaning (P.Calendar.codes calendar.new) (P.Amendable.rest calendar.new) ≡ calendar_after (meaning (P.Calendar.codes calendar.old) (P.Amendable.rest calendar.old)) (Notice.Move from to) }
{
    calendar.open(from)?;
    // `?` and `Ok`: with the call as the last expression the clauses were left open.
    calendar.close(to)?;
    Ok(())
}

/// Does to the calendar what a notice asks for; a refusal leaves it as it was.
pub fn amend<P: Amendable>(calendar: &mut P, notice: Notice) -> Result<(), Fault>
    ensures answer { told refusal result ≡ calendar_answer (meaning (P.Calendar.codes calendar.old) (P.Amendable.rest calendar.old)) notice }
    ensures after { meaning (P.Calendar.codes calendar.new) (P.Amendable.rest calendar.new) ≡ after_notice (meaning (P.Calendar.codes calendar.old) (P.Amendable.rest calendar.old)) notice }
{
    check_notice(calendar, notice)?;
    match notice {
        Notice::Declare(day) => calendar.close(day)?,
        Notice::Cancel(day) => calendar.open(day)?,
        Notice::Move(from, to) => open_then_close(calendar, from, to)?,
        Notice::Withdraw(day) => calendar.restore(day)?,
    }
    Ok(())
}
