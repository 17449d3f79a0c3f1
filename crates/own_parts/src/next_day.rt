ghost use Rattle.own_parts.specs.NextDays.{next_day, next_first, next_run, next_near, next_order};
ghost use Rattle.std.proofs.Common.{rules};

use conventions::{Convention, Unadjusted};
use dates::Day;
use faults::GenerationFault;

/// The unadjusted day or the next one, and no later day.
#[derive(Clone, Copy)]
pub struct NextDay;

impl Convention for NextDay {
    const LETTER: char = 'N';

    const REACH: u32 = 1;

    ghost LETTER = { 78 };

    ghost REACH = { 1 };

    ghost tries = { λ _. next_day };

    ghost small = { Prim.search rules };

    ghost first = { λ _. next_first };

    ghost run = { λ _. next_run };

    ghost near = { λ _. next_near };

    ghost order = { λ _. next_order };

    fn count(&self, u: Unadjusted) -> Result<u32, GenerationFault> {
        if (365..=109_207).contains(&u.0) {
            Ok(2)
        } else {
            Err(GenerationFault::NotTried)
        }
    }

    fn nth(&self, u: Unadjusted, k: u32) -> Result<Day, GenerationFault> {
        if k < self.count(u)? {
            Ok(Day(u.0 + k))
        } else {
            Err(GenerationFault::NotTried)
        }
    }
}
