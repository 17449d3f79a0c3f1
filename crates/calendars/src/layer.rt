ghost use Rattle.std.specs.Prelude.{◌≤◌};

/// The number of a layer that closes days, from 1 to 15.
#[derive(Clone, Copy)]
pub struct Layer {
    number: u8,
    ghost within: { (1 ≤ number) × (number ≤ 15) },
}

mod calls;
