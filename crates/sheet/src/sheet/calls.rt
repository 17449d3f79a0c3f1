ghost use Rattle.std.specs.Prelude.{◌≡◌, map};
ghost use Rattle.faults.specs.Refusals.{told, refusal};
ghost use Rattle.changes.specs.Changes.{seen_place};
ghost use Rattle.sheet.specs.Steps.{Done, step};
ghost use Rattle.sheet.specs.SheetViews.{seen_sheet};

use crate::call::{Answer, Call};
use crate::sheet::Sheet;
use amendments::Amendable;
use changes::Change;
use conventions::Convention;
use faults::Fault;

impl<P: Amendable, C: Convention> Sheet<P, C> {
    /// Does what is asked for; a notice lists the payments that alter, and a refusal leaves sheet and list as they were.
    pub fn call(&mut self, call: Call, list: &mut [Option<Change>]) -> Result<Answer, Fault>
        ensures step { ◌≡◌ {A = Done} (record { sheet = seen_sheet self.new; answer = told refusal result; list = map seen_place list.new }) (step (C.Convention.tries self.old.convention) (seen_sheet self.old) (map seen_place list.old) call) }
        ensures convention { self.new.convention ≡ self.old.convention }
    {
        match call {
            Call::Enter(bond) => {
                let rolls = self.enter(bond)?;
                Ok(Answer::Entered(bond.number, rolls))
            }
            Call::Retire(number) => {
                self.retire(number)?;
                Ok(Answer::Retired(number))
            }
            Call::Amend(notice) => {
                let counts = self.amend(notice, list)?;
                Ok(Answer::Amended(notice, counts))
            }
        }
    }
}
