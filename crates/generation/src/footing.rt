ghost use Rattle.std.specs.Prelude.{◌≡◌, ◌<◌, ◌≤◌, min, max};
ghost use Rattle.std.specs.Option.{option_map};
ghost use Rattle.std.specs.Result.{result_map_both};
ghost use Rattle.faults.specs.Refusals.{told, generation_refusal};
ghost use Rattle.generation.specs.Rolls.{stretched, footing_answer, span_answer};
ghost use Rattle.generation.specs.Laws.{FootingHolds, RunWasTried};
ghost use Rattle.generation.specs.Retrying.{widest};
ghost use Rattle.generation.specs.Views.{number_of, seen_roll, seen_footing};

use crate::roll::Roll;
use conventions::{Convention, Unadjusted};
use dates::Day;
use faults::GenerationFault;

/// How far from a roll's adjusted day a day tried can lie: both lie within 30 days of the unadjusted one.
const FARTHEST: u32 = 60;

/// The days on which a roll stands, from the lowest to the highest.
#[derive(Clone, Copy)]
pub struct Footing {
    pub low: Day,
    pub high: Day,
}

impl Footing {
    /// It with a day in it.
    fn around(self, day: Day) -> Footing
        ensures { seen_footing result ≡ record { low = min self.low.0 day.0; high = max self.high.0 day.0 } }
    {
        Footing {
            low: self.low.min(day),
            high: self.high.max(day),
        }
    }

    /// It stretched back to a fixing, if there is one.
    fn back_to(self, fixing: Option<Day>) -> Footing
        ensures { seen_footing result ≡ record { low = stretched self.low.0 (option_map number_of fixing); high = self.high.0 } }
    {
        let low = fixing.map_or(self.low, |day| self.low.min(day));
        Footing { low, ..self }
    }

    /// The widest that a roll of this adjusted day and this fixing can have.
    pub(crate) fn widest(roll: Roll) -> Footing
        ensures { seen_footing result ≡ widest (seen_roll roll) }
    {
        let adjusted = roll.adjusted.day().0;
        let tried = Footing {
            low: Day(adjusted - FARTHEST),
            high: Day(adjusted + FARTHEST),
        };
        tried.back_to(roll.fixing)
    }
}

/// The lowest and the highest of the days tried for `u`, up to the day `at`.
fn span_to<C: Convention>(
    convention: &C,
    u: Unadjusted,
    at: Day,
) -> Result<Footing, GenerationFault>
    ensures { result_map_both seen_footing generation_refusal result ≡ span_answer (C.Convention.tries convention.now) u.0 at.0 }
{
    let count = convention.count(u)?;
    let mut span = Footing {
        low: Day(u.0),
        high: Day(u.0),
    };
    // An index loop: the index is the question that is asked of a convention.
    for k in 0..count {
        let day = convention.nth(u, k)?;
        span = span.around(day);
        if day == at {
            return Ok(span);
        }
    }
    Ok(span)
}

/// The footing of a kept roll: the run of days tried up to its adjusted day, stretched back to its fixing.
pub fn footing_of<C: Convention>(
    convention: &C,
    u: Unadjusted,
    roll: Roll,
) -> Result<Footing, GenerationFault>
    ensures is { result_map_both seen_footing generation_refusal result ≡ footing_answer (C.Convention.tries convention.now) u.0 (seen_roll roll) }
    ensures holds { FootingHolds }
    ensures run { RunWasTried (C.Convention.tries convention.now) }
{
    span_to(convention, u, roll.adjusted.day()).map(|span| span.back_to(roll.fixing))
}
