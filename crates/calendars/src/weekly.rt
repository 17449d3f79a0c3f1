ghost use Rattle.std.specs.Prelude.{◌≡◌, ℕ, ◌≤◌};
ghost use Rattle.calendars.specs.Codes.{layer_of, closing_small};
ghost use Rattle.calendars.specs.Weeks.{weekly_code};

use crate::calendar::Calendar;
use crate::layer::Layer;
use dates::Day;
use faults::CalendarFault;

/// The weekly rule: seven marks, Monday first; a mark closes its weekday.
#[derive(Clone, Copy)]
pub struct Weekly {
    closed: [bool; 7],
    layer: Layer,
}

impl Weekly {
    /// The rule of these marks, by a layer.
    pub fn new(closed: [bool; 7], layer: u8) -> Weekly
        ensures { weekly_code result.closed result.layer.number ≡ weekly_code closed (layer_of layer) }
    {
        Weekly {
            closed,
            layer: Layer::new(layer),
        }
    }
}

impl Calendar for Weekly {
    ghost codes = { λ s. weekly_code s.closed s.layer.number };

    ghost small = { λ s d. closing_small _ _ s.layer.within.1 };

    fn code(&self, day: Day) -> Result<u8, CalendarFault> {
        let weekday = day.weekday()?;
        // An enum's place is read by `as`: no conversion is defined for it.
        Ok(self.layer.code(self.closed[weekday as usize]))
    }
}
