ghost use Rattle.std.specs.Prelude.{◌≡◌, ◌≤◌};
ghost use Rattle.std.specs.Option.{option_map};
ghost use Rattle.dates.specs.MonthPlaces.{spot_of_place, spot_of_day};
ghost use Rattle.bonds.specs.Rolls.{is_back, anchor, other_end, place};
ghost use Rattle.bonds.specs.Reached.{month_from, shift_answer};

use crate::stub::Stub;
use crate::terms::Terms;
use dates::{Day, Month, MonthPlace};

impl Terms {
    /// The bond's number.
    pub fn number(&self) -> u32
        ensures { result ≡ self.now.number }
    {
        self.number
    }

    /// Whether periods are counted back from maturity.
    pub(crate) fn is_back(&self) -> bool
        ensures { result ≡ is_back self.now }
    {
        matches!(self.stub, Stub::ShortFirst | Stub::LongFirst)
    }

    /// The day from which periods are counted.
    fn anchor(&self) -> u32
        ensures is { result ≡ anchor self.now }
        ensures bound { result ≤ 109207 }
    {
        if self.is_back() {
            self.maturity
        } else {
            self.effective
        }
    }

    /// The end that the count runs to.
    pub(crate) fn other_end(&self) -> u32
        ensures { result ≡ other_end self.now }
    {
        if self.is_back() {
            self.effective
        } else {
            self.maturity
        }
    }

    /// The place of the regular dates in their months, from 0, given the anchor's month and place.
    #[tactic(auto, unfolding(crate::specs::Rolls::place))]
    fn place(&self, at: MonthPlace) -> u32
        requires { spot_of_place at ≡ spot_of_day (anchor self.now) }
        ensures { result ≡ place self.now }
    {
        if self.month_end && at.place == at.month.length() - 1 {
            30
        } else {
            at.place
        }
    }

    /// The month `by` months from another, in the direction of the count.
    fn month_from(&self, month: Month, by: u32) -> Option<Month>
        ensures { option_map (λ m. m.index) result ≡ month_from self.now month.index by }
    {
        if self.is_back() {
            month.earlier(by)
        } else {
            month.later(by)
        }
    }

    /// The anchor's month, and its place there.
    pub(crate) fn anchor_place(&self) -> MonthPlace
        ensures { spot_of_place result ≡ spot_of_day (anchor self.now) }
    {
        Day(self.anchor()).month_place().unwrap()
    }

    /// The anchor shifted by k periods, if that is a day of the calendars, given the anchor's month and place.
    // Laid into its callers: in a loop over k the place of the regular dates is then worked out once.
    #[inline(always)]
    #[tactic(auto, using(crate::proofs::Shifting::shift_is))]
    pub(crate) fn shifted_from(&self, at: MonthPlace, k: u32) -> Option<u32>
        requires { spot_of_place at ≡ spot_of_day (anchor self.now) }
        ensures { result ≡ shift_answer self.now k }
    {
        let month = self.month_from(at.month, self.months.checked_mul(k)?)?;
        Some(month.day_at(self.place(at)).0)
    }

    /// The anchor shifted by k periods, if that is a day of the calendars.
    pub(crate) fn shifted(&self, k: u32) -> Option<u32>
        ensures { result ≡ shift_answer self.now k }
    {
        self.shifted_from(self.anchor_place(), k)
    }
}
