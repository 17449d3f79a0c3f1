ghost use Rattle.std.specs.Prelude.{◌≡◌, ◌≤◌, min};

use crate::layer::Layer;

/// A code of a day, from 0 to 15.
#[derive(Clone, Copy)]
pub struct Code {
    value: u8,
    ghost small: { value ≤ 15 },
}

impl Code {
    /// A code above 15 counts as 15.
    pub fn new(value: u8) -> Code
        ensures { result.value ≡ min value 15 }
    {
        Code {
            value: value.min(15),
        }
    }

    /// The code as a number.
    pub fn value(self) -> u8
        ensures { result ≡ self.value }
    {
        self.value
    }
}

impl From<Layer> for Code {
    ghost from_gives = { λ layer r. r.value ≡ layer.number };

    /// The code of a day that the layer closes.
    fn from(layer: Layer) -> Code {
        Code {
            value: layer.number(),
        }
    }
}
