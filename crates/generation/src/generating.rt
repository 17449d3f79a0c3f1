ghost use Rattle.std.specs.Prelude.{◌≡◌, ◌<◌, [], ◌∷◌, length};
ghost use Rattle.std.specs.Option.{option_map as option_mapped};
ghost use Rattle.std.specs.Result.{result_map_both};
ghost use Rattle.faults.specs.Refusals.{generation_refusal};
ghost use Rattle.calendars.specs.Codes.{good};
ghost use Rattle.generation.specs.Rolls.{roll_answer};
ghost use Rattle.bonds.specs.Rolls.{rolls as unadjusted_rolls};
ghost use Rattle.generation.specs.BondRolls.{bond_roll, generated, NeverBackward};
ghost use Rattle.generation.specs.Views.{seen_roll};

use crate::fixing::fixing_before;
use crate::roll::Roll;
use bonds::Rolls;
use calendars::Calendar;
use conventions::{Adjuster, Convention, Unadjusted};
use faults::{GenerationFault, RollAt};

/// The roll of an unadjusted day, which a refusal names with its bond; with lag 0 it has no fixing.
pub fn generate<K: Calendar, C: Convention>(
    adjuster: &Adjuster<'_, K, C>,
    at: RollAt,
    lag: u32,
) -> Result<Roll, GenerationFault>
    ensures { result_map_both seen_roll generation_refusal result ≡ roll_answer (λ d. good (K.Calendar.codes adjuster.now.calendar.now d)) (C.Convention.tries adjuster.now.convention.now) at.day lag (at.bond ∷ at.roll ∷ at.day ∷ []) }
{
    let adjusted = adjuster
        .first_good(Unadjusted(at.day))?
        .ok_or(GenerationFault::NoGoodDay(at))?;
    if lag == 0 {
        return Ok(Roll {
            adjusted,
            fixing: None,
        });
    }
    let found = fixing_before(adjuster.calendar, adjusted, lag);
    let fixing = found.ok_or(GenerationFault::NoFixing(at))?;
    Ok(Roll {
        adjusted,
        fixing: Some(fixing),
    })
}

/// Roll i of a bond, if it has one.
pub fn bond_roll<K: Calendar, C: Convention>(
    adjuster: &Adjuster<'_, K, C>,
    rolls: &Rolls,
    i: u32,
) -> Option<Result<Roll, GenerationFault>>
    ensures is { option_mapped (result_map_both seen_roll generation_refusal) result ≡ generated (λ d. good (K.Calendar.codes adjuster.now.calendar.now d)) (C.Convention.tries adjuster.now.convention.now) rolls.now.terms i }
    ensures order { NeverBackward (λ d. good (K.Calendar.codes adjuster.now.calendar.now d)) (C.Convention.tries adjuster.now.convention.now) rolls.now.terms }
{
    let u = rolls.day(i)?;
    let at = RollAt {
        bond: u64::from(rolls.number()),
        roll: i,
        day: u.0,
    };
    Some(generate(adjuster, at, rolls.lag(i)))
}

/// Roll i of a bond, which has one.
pub(crate) fn roll_of_bond<K: Calendar, C: Convention>(
    adjuster: &Adjuster<'_, K, C>,
    rolls: &Rolls,
    i: u32,
) -> Result<Roll, GenerationFault>
    requires { i < length (unadjusted_rolls rolls.now.terms) }
    ensures { result_map_both seen_roll generation_refusal result ≡ bond_roll (λ d. good (K.Calendar.codes adjuster.now.calendar.now d)) (C.Convention.tries adjuster.now.convention.now) rolls.now.terms i }
{
    bond_roll(adjuster, rolls, i).unwrap()
}
