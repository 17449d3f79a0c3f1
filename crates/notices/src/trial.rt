ghost use Rattle.amendments.specs.Meanings.{meaning};
ghost use Rattle.notices.specs.Notices.{calendar_after, after_small};

use crate::notice::Notice;
use amendments::Amendable;
use calendars::Calendar;
use dates::Day;
use faults::CalendarFault;

/// A calendar as it would be after a notice.
#[derive(Drop)]
pub struct Trial<'a, P> {
    pub calendar: &'a P,
    pub notice: Notice,
}

impl<'a, P: Amendable> Calendar for Trial<'a, P> {
    ghost codes = { λ t. (calendar_after (meaning (P.Calendar.codes t.calendar.now) (P.Amendable.rest t.calendar.now)) t.notice).codes };

    ghost small = { λ t. after_small (meaning (P.Calendar.codes t.calendar.now) (P.Amendable.rest t.calendar.now)) t.notice (P.Calendar.small t.calendar.now) (P.Amendable.small t.calendar.now) (P.Amendable.numbered t.calendar.now).1 };

    fn code(&self, day: Day) -> Result<u8, CalendarFault> {
        let code = self.calendar.code(day)?;
        match self.notice {
            Notice::Declare(closed) | Notice::Move(_, closed) if day == closed => {
                Ok(self.calendar.number())
            }
            Notice::Cancel(opened) | Notice::Move(opened, _) if day == opened => Ok(0),
            Notice::Withdraw(restored) if day == restored => self.calendar.code_under(day),
            _ => Ok(code),
        }
    }
}
