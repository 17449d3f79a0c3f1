ghost use Rattle.conventions.specs.Turns.{last_of, modified_following};
ghost use Rattle.conventions.specs.ConventionLaws.{modified_following_ending, modified_following_laws};
ghost use Rattle.std.proofs.Common.{rules};

use crate::convention::Convention;
use crate::turns::Turns;
use crate::turns::calls::turning_of;
use crate::unadjusted::Unadjusted;
use dates::Day;
use faults::GenerationFault;

/// The unadjusted day up to the last of its month, then the 30 days before it.
#[derive(Clone, Copy)]
pub struct ModifiedFollowing;

impl Turns for ModifiedFollowing {
    const BACK: u32 = 30;

    ghost BACK = { 30 };

    ghost tries = { modified_following };

    ghost last = { last_of };

    ghost shape = { Prim.search rules };

    ghost ending = { modified_following_ending };

    ghost few = { Prim.search rules };

    fn last_day(&self, u: u32) -> u32 {
        let at = Day(u).month_place().unwrap();
        at.month.day_at(30).0
    }
}

impl Convention for ModifiedFollowing {
    const LETTER: char = 'M';

    const REACH: u32 = 30;

    ghost LETTER = { 77 };

    ghost REACH = { 30 };

    ghost tries = { λ _. modified_following };

    ghost small = { Prim.search rules };

    ghost first = { λ _. modified_following_laws.first };

    ghost run = { λ _. modified_following_laws.run };

    ghost near = { λ _. modified_following_laws.near };

    ghost order = { λ _. modified_following_laws.order };

    fn count(&self, u: Unadjusted) -> Result<u32, GenerationFault> {
        Ok(turning_of(self, u)?.count())
    }

    fn nth(&self, u: Unadjusted, k: u32) -> Result<Day, GenerationFault> {
        turning_of(self, u)?.nth(k)
    }
}
