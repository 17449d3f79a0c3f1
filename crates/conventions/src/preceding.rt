ghost use Rattle.conventions.specs.Turns.{preceding};
ghost use Rattle.conventions.specs.ConventionLaws.{preceding_ending, preceding_laws};
ghost use Rattle.std.proofs.Common.{rules};

use crate::convention::Convention;
use crate::turns::Turns;
use crate::turns::calls::turning_of;
use crate::unadjusted::Unadjusted;
use dates::Day;
use faults::GenerationFault;

/// The unadjusted day and the 30 days before it.
#[derive(Clone, Copy)]
pub struct Preceding;

impl Turns for Preceding {
    const BACK: u32 = 30;

    ghost BACK = { 30 };

    ghost tries = { preceding };

    ghost last = { λ u. u };

    ghost shape = { Prim.search rules };

    ghost ending = { preceding_ending };

    ghost few = { Prim.search rules };

    fn last_day(&self, u: u32) -> u32 {
        u
    }
}

impl Convention for Preceding {
    const LETTER: char = 'P';

    const REACH: u32 = 30;

    ghost LETTER = { 80 };

    ghost REACH = { 30 };

    ghost tries = { λ _. preceding };

    ghost small = { Prim.search rules };

    ghost first = { λ _. preceding_laws.first };

    ghost run = { λ _. preceding_laws.run };

    ghost near = { λ _. preceding_laws.near };

    ghost order = { λ _. preceding_laws.order };

    fn count(&self, u: Unadjusted) -> Result<u32, GenerationFault> {
        Ok(turning_of(self, u)?.count())
    }

    fn nth(&self, u: Unadjusted, k: u32) -> Result<Day, GenerationFault> {
        turning_of(self, u)?.nth(k)
    }
}
