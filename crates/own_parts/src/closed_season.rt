ghost use Rattle.std.specs.Prelude.{◌&&◌, nat_le};
ghost use Rattle.calendars.specs.Codes.{closing, closing_small};

use calendars::{Calendar, Layer};
use dates::Day;
use faults::CalendarFault;

/// A calendar that closes every day from a first to a last one.
#[derive(Clone, Copy)]
pub struct ClosedSeason {
    pub first: Day,
    pub last: Day,
    pub layer: Layer,
}

impl Calendar for ClosedSeason {
    ghost codes = { λ s d. closing (nat_le s.first.0 d && nat_le d s.last.0) s.layer.number };

    ghost small = { λ s d. closing_small _ _ s.layer.within.1 };

    fn code(&self, day: Day) -> Result<u8, CalendarFault> {
        let day = day.checked()?;
        if self.first <= day && day <= self.last {
            Ok(self.layer.number())
        } else {
            Ok(0)
        }
    }
}
