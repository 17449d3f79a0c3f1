ghost use Rattle.std.specs.Prelude.{◌≡◌, ◌≤◌};
ghost use Rattle.calendars.specs.Codes.{closing, layer_of};

use crate::layer::Layer;

impl Layer {
    /// A number outside 1 to 15 counts as 15.
    pub fn new(number: u8) -> Layer
        ensures { result.number ≡ layer_of number }
    {
        match number {
            1..=15 => Layer { number },
            _ => Layer { number: 15 },
        }
    }

    /// Its number, from 1 to 15.
    pub fn number(self) -> u8
        ensures { result ≡ self.number }
    {
        self.number
    }

    /// The code of a day: the layer's number where it closes the day, else 0.
    pub(crate) fn code(self, closed: bool) -> u8
        ensures { result ≡ closing closed self.number }
    {
        if closed { self.number } else { 0 }
    }
}
