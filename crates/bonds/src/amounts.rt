ghost use Rattle.std.specs.Prelude.{◌≡◌, ◌*◌};
ghost use Rattle.bonds.specs.Money.{amount, Nearest};

use crate::terms::Terms;

/// The days of a year, times the parts of which a rate counts.
const YEAR: u128 = 36_000_000;

impl Terms {
    /// The interest for a number of days, to the nearest minor unit, an exact half going up.
    pub fn amount(&self, days: u32) -> u64
        ensures is { result ≡ amount self.now.face self.now.rate days }
        ensures nearest { Nearest (self.now.face * self.now.rate * days) 36000000 result }
    {
        let product = u128::from(self.face) * u128::from(self.rate) * u128::from(days);
        // Narrowed by `as`: the largest face, rate and days leave no error that `try_from` could give.
        ((2 * product + YEAR) / (2 * YEAR)) as u64
    }
}
