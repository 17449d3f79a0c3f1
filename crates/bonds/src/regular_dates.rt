ghost use Rattle.std.specs.Prelude.{◌≡◌, ◌<◌, min, length};
ghost use Rattle.dates.specs.MonthPlaces.{spot_of_place, spot_of_day};
ghost use Rattle.bonds.specs.Rolls.{anchor, regular, has_stub, kept};
ghost use Rattle.bonds.specs.Reached.{regular_answer};

use crate::stub::Stub;
use crate::terms::Terms;
use dates::MonthPlace;

/// Terms with so many regular dates have too many rolls.
const MANY: u32 = 100;

impl Terms {
    /// The regular date k periods from the anchor, whose month and place are given: it lies strictly between the ends.
    fn regular(&self, at: MonthPlace, k: u32) -> Option<u32>
        requires { spot_of_place at ≡ spot_of_day (anchor self.now) }
        ensures { result ≡ regular_answer self.now k }
    {
        self.shifted_from(at, k)
            .filter(|&day| self.effective < day && day < self.maturity)
    }

    /// How many regular dates there are, up to 100.
    fn regular_count(&self) -> u32
        ensures { result ≡ min (length (regular self.now)) 100 }
    {
        // The anchor's place is worked out once, and not for each period.
        let at = self.anchor_place();
        (0..MANY)
            .find(|&n| self.regular(at, n + 1).is_none())
            .unwrap_or(MANY)
    }

    /// Whether a period is left over after n regular dates, all that there are.
    fn has_stub(&self, n: u32) -> bool
        requires all { n ≡ length (regular self.now) }
        requires few { n < 100 }
        ensures { result ≡ has_stub self.now }
    {
        self.shifted(n + 1) != Some(self.other_end())
    }

    /// How many regular dates are rolls, exactly if below 99: a long stub drops the one next to it.
    #[tactic(auto, using(crate::proofs::Rolling::kept_length, crate::proofs::Rolling::kept_near))]
    pub(crate) fn kept_count(&self) -> u32
        ensures { min result 99 ≡ min (length (kept self.now)) 99 }
    {
        let n = self.regular_count();
        if n == MANY || !self.has_stub(n) {
            return n;
        }
        match self.stub {
            Stub::ShortFirst | Stub::ShortLast => n,
            Stub::LongFirst | Stub::LongLast => n.saturating_sub(1),
        }
    }
}
