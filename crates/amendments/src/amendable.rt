ghost use Rattle.std.specs.Prelude.{◌≡◌, ℕ, ◌≤◌, true, length};
ghost use Rattle.faults.specs.Refusals.{told, calendar_refusal};
ghost use Rattle.dates.specs.Civil.{asked};
ghost use Rattle.tables.specs.Tables.{rising};
ghost use Rattle.amendments.specs.Meanings.{Rest, meaning, itself, is_entered, amend_answer, restore_answer, after_close, after_open, after_restore};

use calendars::Calendar;
use dates::Day;
use faults::CalendarFault;

/// A calendar with more to it: days can be closed, opened and restored, one at a time.
///
/// A day after 31 December 2199 is refused with 10 in every call, and a refusal leaves the whole meaning as it was.
pub trait Amendable: Calendar {
    /// Its meaning beside its code now, which is the calendar's own.
    ghost rest: { Self → Rest };

    /// Its own number is that of a layer.
    ghost numbered: { (s : Self) → (1 ≤ (rest s).number) × ((rest s).number ≤ 15) };

    /// No code under a day is above 15.
    ghost small: { (s : Self) (d : ℕ) → (rest s).under d ≤ 15 };

    /// The code under a day.
    fn code_under(&self, day: Day) -> Result<u8, CalendarFault>
        ensures { told calendar_refusal result ≡ asked day.0 ((rest self.now).under day.0) };

    /// Whether a day is entered.
    fn is_entered(&self, day: Day) -> Result<bool, CalendarFault>
        ensures { told calendar_refusal result ≡ asked day.0 (is_entered (rest self.now) day.0) };

    /// How many days are entered.
    fn entry_count(&self) -> usize
        ensures { result ≡ length (rest self.now).entered };

    /// Its own number.
    fn number(&self) -> u8
        ensures { result ≡ (rest self.now).number };

    /// Closes a day by its own number, and enters it.
    fn close(&mut self, day: Day) -> Result<(), CalendarFault>
        ensures answer { told calendar_refusal result ≡ amend_answer (rest self.old) day.0 }
        ensures after { meaning (Self.Calendar.codes self.new) (rest self.new) ≡ after_close (meaning (Self.Calendar.codes self.old) (rest self.old)) day.0 };

    /// Makes a day good, and enters it.
    fn open(&mut self, day: Day) -> Result<(), CalendarFault>
        ensures answer { told calendar_refusal result ≡ amend_answer (rest self.old) day.0 }
        ensures after { meaning (Self.Calendar.codes self.new) (rest self.new) ≡ after_open (meaning (Self.Calendar.codes self.old) (rest self.old)) day.0 };

    /// Gives a day the code under it, and takes it out of the entered days.
    fn restore(&mut self, day: Day) -> Result<(), CalendarFault>
        ensures answer { told calendar_refusal result ≡ restore_answer (rest self.old) day.0 }
        ensures after { meaning (Self.Calendar.codes self.new) (rest self.new) ≡ after_restore (meaning (Self.Calendar.codes self.old) (rest self.old)) day.0 };

    /// The entered days stand in rising order, each once.
    ghost risen: { (s : Self) → rising itself 0 (rest s).entered ≡ true };

    /// They are at most 200.
    ghost few: { (s : Self) → length (rest s).entered ≤ 200 };
}
