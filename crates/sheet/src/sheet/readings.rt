ghost use Rattle.std.specs.Prelude.{◌≡◌};
ghost use Rattle.std.specs.Option.{option_map as option_mapped};
ghost use Rattle.std.specs.Result.{result_map_both};
ghost use Rattle.faults.specs.Refusals.{sheet_refusal};
ghost use Rattle.generation.specs.Schedules.{seen_schedule};
ghost use Rattle.generation.specs.Payments.{seen_payment};
ghost use Rattle.sheet.specs.Readings.{schedule_numbered, payment_among, payment_answer};
ghost use Rattle.sheet.specs.SheetViews.{kept_by, seen_sheet};

use crate::sheet::Sheet;
use amendments::Amendable;
use conventions::Convention;
use faults::SheetFault;
use generation::{Payment, Schedule};
use tables::find;

impl<P: Amendable, C: Convention> Sheet<P, C> {
    /// The schedule of the bond of a number, if it is live.
    fn schedule(&self, number: u64) -> Option<&Schedule>
        ensures { option_mapped (λ x. seen_schedule x.now) result ≡ schedule_numbered number (kept_by self.now) }
    {
        let live = self.live();
        let at = find(live, number).ok()?;
        live[at].as_ref()
    }

    /// Payment k, from 1, of the bond of a number, from what is kept.
    pub fn payment(&self, number: u64, k: u64) -> Result<Payment, SheetFault>
        ensures kept { result_map_both seen_payment sheet_refusal result ≡ payment_among (kept_by self.now) number k }
        ensures fresh { result_map_both seen_payment sheet_refusal result ≡ payment_answer (C.Convention.tries self.now.convention) (seen_sheet self.now) number k }
    {
        let schedule = self.schedule(number).ok_or(SheetFault::NotLive(number))?;
        schedule.payment(k).ok_or(SheetFault::NoPayment(number))
    }
}
