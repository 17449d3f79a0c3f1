ghost use Rattle.generation.specs.Schedules.{seen_schedule};

use crate::schedule::Schedule;
use tables::Keyed;

/// Schedules are kept by their bond's number.
impl Keyed for Schedule {
    ghost key = { λ s. (seen_schedule s).terms.number };

    fn key(&self) -> u64 {
        u64::from(self.number())
    }
}
