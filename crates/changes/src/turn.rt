ghost use Rattle.std.specs.Prelude.{◌≡◌};
ghost use Rattle.generation.specs.Payments.{seen_payment};
ghost use Rattle.changes.specs.Changes.{seen_pair, code_on, alteration, seen_change};

use crate::change::Change;
use calendars::Calendar;
use dates::Day;
use generation::Payment;

/// The calendars before and after a notice.
#[derive(Drop)]
pub struct Turn<'a, K, T> {
    pub before: &'a K,
    pub after: &'a T,
}

/// The code of a day; 0 after 31 December 2199.
fn code_of<K: Calendar>(calendar: &K, day: Day) -> u8
    ensures { result ≡ code_on (K.Calendar.codes calendar.now) day.0 }
{
    calendar.code(day).unwrap_or(0)
}

impl<K: Calendar, T: Calendar> Turn<'_, K, T> {
    /// A payment that alters, with the codes of its dates.
    pub(crate) fn change(&self, bond: u32, payment: u32, was: Payment, becomes: Payment) -> Change
        ensures { seen_change result ≡ alteration (K.Calendar.codes self.now.before.now) (T.Calendar.codes self.now.after.now) bond payment (seen_pair (was, becomes)) }
    {
        Change {
            bond,
            payment,
            old: was,
            new: becomes,
            closes_old: code_of(self.after, was.date.day()),
            closed_new: code_of(self.before, becomes.date.day()),
        }
    }
}
