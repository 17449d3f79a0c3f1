ghost use Rattle.std.specs.Prelude.{◌≡◌, ◌+◌, ◌-◌, ◌≤◌, length, IfSome, if◌then◌else◌};
ghost use Rattle.std.specs.Result.{result_map_both};
ghost use Rattle.faults.specs.Refusals.{sheet_refusal};
ghost use Rattle.bonds.specs.Bonds.{most_lag};
ghost use Rattle.bonds.specs.Rolls.{is_back, rolls, rolls_answer, roll_at, lag_of};
ghost use Rattle.bonds.specs.RollLaws.{Rising, Spanning, Complete};

use crate::rolls::Rolls;
use crate::terms::Terms;
use conventions::Unadjusted;
use faults::SheetFault;

/// The most rolls that lie between the first and the last.
const MOST_INNER: u32 = 98;

impl Terms {
    /// The rolls, unless they are more than 100.
    #[tactic(auto, using(crate::proofs::Rolling::rolls_length, crate::proofs::Rolling::rising, crate::proofs::Rolling::complete))]
    pub fn rolls(self) -> Result<Rolls, SheetFault>
        ensures is { result_map_both (λ x. x.terms) sheet_refusal result ≡ rolls_answer self }
        ensures rising { Rising self }
        ensures spanning { Spanning self }
        ensures complete { Complete self }
    {
        let inner = self.kept_count();
        if inner > MOST_INNER {
            return Err(SheetFault::ManyRolls(u64::from(self.number)));
        }
        Ok(Rolls { terms: self, inner })
    }
}

impl Rolls {
    /// How many rolls there are.
    #[tactic(auto, using(crate::proofs::Rolling::rolls_length))]
    pub fn count(&self) -> u32
        ensures is { result ≡ length (rolls self.now.terms) }
        ensures bound { (2 ≤ result) × (result ≤ 100) }
    {
        self.inner + 2
    }

    /// How many periods from the anchor roll i lies, from 1 to the last but one.
    fn periods(&self, i: u32) -> u32
        requires { i ≤ self.now.inner }
        ensures { result ≡ (if is_back self.now.terms then self.now.inner + 1 - i else i) }
    {
        if self.terms.is_back() {
            self.inner + 1 - i
        } else {
            i
        }
    }

    /// The unadjusted day of roll i, from 0.
    #[tactic(auto, using(crate::proofs::Rolling::rolls_length, crate::proofs::Rolling::roll_first, crate::proofs::Rolling::roll_end))]
    pub fn day(&self, i: u32) -> Option<Unadjusted>
        ensures is { result ≡ roll_at self.now.terms i }
        ensures served { IfSome result (λ u. (365 ≤ u.0) × (u.0 ≤ 109207)) }
    {
        if i == 0 {
            return Some(Unadjusted(self.terms.effective));
        }
        if i == self.inner + 1 {
            return Some(Unadjusted(self.terms.maturity));
        }
        if i > self.inner {
            return None;
        }
        self.terms.shifted(self.periods(i)).map(Unadjusted)
    }

    /// How many good days before roll i its fixing lies; the last roll has no fixing.
    #[tactic(auto, using(crate::proofs::Rolling::rolls_length))]
    pub fn lag(&self, i: u32) -> u32
        ensures is { result ≡ lag_of self.now.terms i }
        ensures bound { result ≤ most_lag }
    {
        if i > self.inner { 0 } else { self.terms.lag }
    }

    /// The terms that give them.
    pub fn terms(&self) -> Terms
        ensures { result ≡ self.now.terms }
    {
        self.terms
    }

    /// The bond's number.
    pub fn number(&self) -> u32
        ensures { result ≡ self.now.terms.number }
    {
        self.terms.number
    }
}
