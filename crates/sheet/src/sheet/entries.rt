ghost use Rattle.std.specs.Prelude.{◌≡◌, ℕ, ◌≤◌, length, take};
ghost use Rattle.std.specs.Result.{result_map_both};
ghost use Rattle.faults.specs.Refusals.{told, refusal, sheet_refusal};
ghost use Rattle.amendments.specs.Meanings.{meaning};
ghost use Rattle.tables.specs.Tables.{has};
ghost use Rattle.sheet.specs.FreshSheets.{After, opened, roll_total, number as number_of_terms};
ghost use Rattle.sheet.specs.Entries.{has_room, admitted, entered, retired};
ghost use Rattle.sheet.specs.KeptBonds.{kept, bonds_of};
ghost use Rattle.sheet.specs.SheetViews.{kept_by, seen_sheet};

use crate::sheet::{MOST_BONDS, MOST_ROLLS, Sheet};
use amendments::Amendable;
use bonds::{Bond, Rolls, Terms};
use calendars::Calendar;
use conventions::{Adjuster, Convention};
use faults::{Fault, SheetFault};
use generation::Schedule;
use tables::{find, insert, remove};

/// How many rolls the bonds in some places have together.
fn roll_total(places: &[Option<Schedule>]) -> u32
    requires { length places.now ≤ 32 }
    ensures is { result ≡ roll_total (bonds_of (kept places.now)) }
    ensures bound { result ≤ 3200 }
{
    places
        .iter()
        .flatten()
        .map(|schedule| schedule.count())
        .sum()
}

impl<P: Amendable, C: Convention> Sheet<P, C> {
    /// A sheet without bonds.
    #[tactic(auto, unfolding(crate::specs::KeptBonds::kept, generation::specs::Granting::each_granted))]
    pub fn new(calendar: P, convention: C) -> Sheet<P, C>
        ensures sheet { seen_sheet result ≡ opened (meaning (P.Calendar.codes calendar) (P.Amendable.rest calendar)) }
        ensures convention { result.convention ≡ convention }
    {
        Sheet {
            calendar,
            convention,
            places: [None; 32],
            count: 0,
        }
    }

    /// The places of the live bonds.
    pub(crate) fn live(&self) -> &[Option<Schedule>]
        ensures is { result.now ≡ take self.now.count self.now.places }
        ensures many { length result.now ≡ self.now.count }
    {
        &self.places[..self.count]
    }

    /// Whether a bond of this number is live.
    fn is_live(&self, number: u64) -> bool
        ensures { result ≡ has number_of_terms number (bonds_of (kept_by self.now)) }
    {
        find(self.live(), number).is_ok()
    }

    /// Whether one more bond of so many rolls fits.
    #[tactic(auto, using(std::proofs::lemmas::Bool::Decides::nat_tests, crate::proofs::KeptPlaces::length_bonds))]
    fn has_room(&self, rolls: u32) -> bool
        requires { rolls ≤ 100 }
        ensures { result ≡ has_room (bonds_of (kept_by self.now)) rolls }
    {
        let live = self.live();
        live.len() < MOST_BONDS && roll_total(live) + rolls <= MOST_ROLLS
    }

    /// The rolls of terms that may stand beside the live bonds.
    fn admit(&self, terms: Terms) -> Result<Rolls, SheetFault>
        ensures { result_map_both (λ (x : _). x.terms) sheet_refusal result ≡ admitted (bonds_of (kept_by self.now)) terms }
    {
        let number = u64::from(terms.number());
        if self.is_live(number) {
            return Err(SheetFault::Live(number));
        }
        let rolls = terms.rolls()?;
        if !self.has_room(rolls.count()) {
            return Err(SheetFault::SheetFull(number));
        }
        Ok(rolls)
    }

    /// Enters a bond and answers how many rolls it has; a refusal leaves the sheet as it was.
    pub fn enter(&mut self, bond: Bond) -> Result<u32, Fault>
        ensures step { ◌≡◌ {A = After ℕ} (record { sheet = seen_sheet self.new; answer = told refusal result }) (entered (C.Convention.tries self.old.convention) (seen_sheet self.old) bond) }
        ensures convention { self.new.convention ≡ self.old.convention }
    {
        let terms = bond.terms()?;
        let rolls = self.admit(terms)?;
        let adjuster = Adjuster {
            calendar: &self.calendar,
            convention: &self.convention,
        };
        let schedule = Schedule::generate(&adjuster, rolls)?;
        if !insert(&mut self.places, self.count, Some(schedule)) {
            return Err(Fault::Sheet(SheetFault::SheetFull(bond.number)));
        }
        self.count += 1;
        Ok(schedule.count())
    }

    /// Takes the bond of a number off the sheet; a refusal leaves the sheet as it was.
    pub fn retire(&mut self, number: u64) -> Result<(), Fault>
        ensures step { ◌≡◌ {A = After (Unit {0})} (record { sheet = seen_sheet self.new; answer = told refusal result }) (retired (seen_sheet self.old) number) }
        ensures convention { self.new.convention ≡ self.old.convention }
    {
        if !remove(&mut self.places, self.count, number) {
            return Err(Fault::Sheet(SheetFault::NotLive(number)));
        }
        self.count -= 1;
        Ok(())
    }
}
