ghost use Rattle.std.specs.Prelude.{◌+◌};
ghost use Rattle.conventions.specs.Turns.{following};
ghost use Rattle.conventions.specs.ConventionLaws.{following_ending, following_laws};
ghost use Rattle.std.proofs.Common.{rules};

use crate::convention::Convention;
use crate::turns::Turns;
use crate::turns::calls::turning_of;
use crate::unadjusted::Unadjusted;
use dates::Day;
use faults::GenerationFault;

/// The unadjusted day and the 30 days after it.
#[derive(Clone, Copy)]
pub struct Following;

impl Turns for Following {
    const BACK: u32 = 0;

    ghost BACK = { 0 };

    ghost tries = { following };

    ghost last = { λ u. u + 30 };

    ghost shape = { Prim.search rules };

    ghost ending = { following_ending };

    ghost few = { Prim.search rules };

    fn last_day(&self, u: u32) -> u32 {
        u + Self::REACH
    }
}

impl Convention for Following {
    const LETTER: char = 'F';

    const REACH: u32 = 30;

    ghost LETTER = { 70 };

    ghost REACH = { 30 };

    ghost tries = { λ _. following };

    ghost small = { Prim.search rules };

    ghost first = { λ _. following_laws.first };

    ghost run = { λ _. following_laws.run };

    ghost near = { λ _. following_laws.near };

    ghost order = { λ _. following_laws.order };

    fn count(&self, u: Unadjusted) -> Result<u32, GenerationFault> {
        Ok(turning_of(self, u)?.count())
    }

    fn nth(&self, u: Unadjusted, k: u32) -> Result<Day, GenerationFault> {
        turning_of(self, u)?.nth(k)
    }
}
