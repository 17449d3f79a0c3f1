ghost use Rattle.std.specs.Prelude.{◌≡◌, [], if◌then◌else◌, Ok};
ghost use Rattle.std.specs.Result.{result_map_both};
ghost use Rattle.faults.specs.Refusals.{told, generation_refusal, refuse};
ghost use Rattle.conventions.specs.Tries.{served};
ghost use Rattle.conventions.specs.Turns.{turning};
ghost use Rattle.conventions.specs.declared.turning.Turning.{Turning};

use crate::turning::Turning;
use crate::turns::Turns;
use crate::unadjusted::Unadjusted;
use faults::GenerationFault;

/// The number of a day that conventions serve; any other is refused.
fn served_number(u: Unadjusted) -> Result<u32, GenerationFault>
    ensures { told generation_refusal result ≡ (if served u.0 then Ok u.0 else refuse 45 []) }
{
    if (365..=109_207).contains(&u.0) {
        Ok(u.0)
    } else {
        Err(GenerationFault::NotTried)
    }
}

/// The days that are tried for a day that conventions serve.
pub(crate) fn turning_of<T: Turns>(
    convention: &T,
    u: Unadjusted,
) -> Result<Turning, GenerationFault>
    ensures { result_map_both (λ (t : Turning). turning t.last t.back t.u) generation_refusal result ≡ (if served u.0 then Ok (T.Turns.tries u.0) else refuse 45 []) }
{
    let u = served_number(u)?;
    Ok(Turning {
        u,
        last: convention.last_day(u),
        back: T::BACK,
    })
}
