ghost use Rattle.std.specs.Prelude.{◌≡◌, ◌&&◌, nat_le};
ghost use Rattle.std.specs.Result.{result_map_both};
ghost use Rattle.faults.specs.Refusals.{told, sheet_refusal};
ghost use Rattle.bonds.specs.Bonds.{in_range, in_order, checked};
ghost use Rattle.bonds.specs.BondTerms.{bond_of};
ghost use Rattle.bonds.specs.TermsOf.{terms_answer};

use crate::bond::Bond;
use crate::stub::Stub;
use crate::terms::Terms;
use dates::Day;
use faults::SheetFault;

/// The first day that a bond's terms may have, 1 January 1901.
const FIRST: Day = Day(365);

/// The last, 31 December 2198.
const LAST: Day = Day(109_207);

/// The greatest fixing lag.
const MOST_LAG: u64 = 10;

impl Bond {
    /// Whether every field but the days and the stub is in its range.
    fn is_in_range(&self) -> bool
        ensures { in_range self.now ≡ (nat_le self.now.stub 3 && result) }
    {
        (1..=999_999).contains(&self.number)
            && matches!(self.months, 1 | 3 | 6 | 12)
            && self.mark <= 1
            && self.lag <= MOST_LAG
            && (1..=100_000_000_000).contains(&self.face)
            && self.rate <= 100_000
    }

    /// Whether the days are in theirs, maturity after effective.
    fn is_in_order(&self) -> bool
        ensures { result ≡ in_order self.now }
    {
        FIRST <= self.effective && self.maturity <= LAST && self.effective < self.maturity
    }

    /// The bond's terms, if its fields are in their ranges and its days in order.
    pub fn terms(&self) -> Result<Terms, SheetFault>
        ensures is { told sheet_refusal result ≡ terms_answer self.now }
        ensures whole { result_map_both bond_of sheet_refusal result ≡ checked self.now }
    {
        let stub = Stub::try_from(self.stub).map_err(|_| SheetFault::OutOfRange(self.number))?;
        if !self.is_in_range() {
            return Err(SheetFault::OutOfRange(self.number));
        }
        if !self.is_in_order() {
            return Err(SheetFault::BadDays(self.number));
        }
        // The casts narrow, and lose nothing: the ranges were tested.
        Ok(Terms {
            number: self.number as u32,
            effective: self.effective.0,
            maturity: self.maturity.0,
            months: self.months as u32,
            stub,
            month_end: self.mark == 1,
            lag: self.lag as u32,
            face: self.face,
            rate: self.rate as u32,
        })
    }
}
