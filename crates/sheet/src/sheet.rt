ghost use Rattle.std.specs.Prelude.{◌≡◌, ◌≤◌, true, length, take};
ghost use Rattle.std.proofs.Props.{props};
ghost use Rattle.tables.specs.Tables.{rising};
ghost use Rattle.amendments.specs.Meanings.{meaning};
ghost use Rattle.sheet.specs.KeptBonds.{place_number, all_live, kept, Sound};

use amendments::Amendable;
use conventions::Convention;
use generation::Schedule;

/// The most bonds that are live at once.
const MOST_BONDS: usize = 32;

/// The most rolls of all live bonds together.
const MOST_ROLLS: u32 = 400;

/// A sheet over an amendable calendar and a convention: the live bonds stand by rising number in the first `count` places.
#[derive(Drop)]
pub struct Sheet<P: Amendable, C: Convention> {
    calendar: P,
    convention: C,
    // A fixed array and a count: no call may fail for want of memory.
    places: [Option<Schedule>; 32],
    count: usize,
    ghost within: { (count ≤ 32) × (length places ≡ 32) },
    ghost full: { all_live (take count places) ≡ true },
    ghost risen: { rising place_number 0 (take count places) ≡ true },
    pub ghost fresh: { Sound (C.Convention.tries convention) (meaning (P.Calendar.codes calendar) (P.Amendable.rest calendar)) (kept (take count places)) } by { Prim.hlevel props },
}

mod amending;
mod calls;
mod entries;
mod readings;
