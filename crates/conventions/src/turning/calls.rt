ghost use Rattle.std.specs.Prelude.{◌≡◌, length};
ghost use Rattle.std.specs.Result.{result_map_both};
ghost use Rattle.faults.specs.Refusals.{generation_refusal};
ghost use Rattle.conventions.specs.Tries.{day_in};
ghost use Rattle.conventions.specs.Turns.{turning};
ghost use Rattle.dates.specs.declared.day.Day.{Day};

use crate::turning::Turning;
use dates::Day;
use faults::GenerationFault;

impl Turning {
    /// How many days there are.
    pub(crate) fn count(self) -> u32
        ensures { result ≡ length (turning self.last self.back self.u) }
    {
        self.last + 1 - self.u + self.back
    }

    /// The k-th of them, from 0; none past the end.
    pub(crate) fn nth(self, k: u32) -> Result<Day, GenerationFault>
        ensures { result_map_both (λ (d : Day). d.0) generation_refusal result ≡ day_in (turning self.last self.back self.u) k }
    {
        if k >= self.count() {
            return Err(GenerationFault::NotTried);
        }
        if k <= self.last - self.u {
            Ok(Day(self.u + k))
        } else {
            Ok(Day(self.last - k))
        }
    }
}
