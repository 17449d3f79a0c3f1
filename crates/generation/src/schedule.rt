ghost use Rattle.std.specs.Prelude.{◌≡◌, length};
ghost use Rattle.std.proofs.Props.{props};
ghost use Rattle.generation.specs.NearRolls.{NearRolls};

use crate::roll::Roll;
use bonds::Rolls;

/// A bond with what is generated of each of its rolls; places past the last roll hold anything.
#[derive(Clone, Copy)]
pub struct Schedule {
    rolls: Rolls,
    // A fixed array: no call may fail for want of memory.
    days: [Roll; 100],
    ghost size: { length days ≡ 100 },
    ghost near: { NearRolls rolls.terms days } by { Prim.hlevel props },
}

mod calls;
mod keyed;
mod retry;
