ghost use Rattle.std.specs.Prelude.{◌≡◌, ℕ, ◌≤◌};
ghost use Rattle.calendars.specs.Codes.{over, over_small};

use crate::calendar::Calendar;
use dates::Day;
use faults::CalendarFault;

/// Two calendars as one: the left one's code unless that is 0, then the right one's.
#[derive(Drop)]
pub struct Joint<L, R> {
    left: L,
    right: R,
}

impl<L, R> Joint<L, R> {
    /// The two as one.
    pub fn new(left: L, right: R) -> Joint<L, R>
        ensures { result ≡ record { left = left; right = right } }
    {
        Joint { left, right }
    }
}

impl<L: Calendar, R: Calendar> Calendar for Joint<L, R> {
    ghost codes = { λ s. over (L.Calendar.codes s.left) (R.Calendar.codes s.right) };

    ghost small = { λ s d. over_small (L.Calendar.codes s.left) (R.Calendar.codes s.right) (L.Calendar.small s.left) (R.Calendar.small s.right) d };

    fn code(&self, day: Day) -> Result<u8, CalendarFault> {
        let left = self.left.code(day)?;
        if left == 0 {
            self.right.code(day)
        } else {
            Ok(left)
        }
    }
}
