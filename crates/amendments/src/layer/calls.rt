ghost use Rattle.std.specs.Prelude.{◌≡◌, []};
ghost use Rattle.std.proofs.Common.{◌∙◌, arith};
ghost use Rattle.faults.specs.Refusals.{told, calendar_refusal};
ghost use Rattle.calendars.specs.Codes.{layer_of};
ghost use Rattle.tables.specs.Tables.{found};
ghost use Rattle.tables.specs.TableLaws.{Within};
ghost use Rattle.amendments.specs.Meanings.{meaning, if_granted, amended, amend_answer, itself};
ghost use Rattle.amendments.specs.Layers.{day_of, layer_small};
ghost use Rattle.amendments.specs.LayerViews.{entries_of, layer_now};
ghost use Rattle.tables.proofs.Views.{rising_map};
ghost use Rattle.std.proofs.lemmas.List.{length-map, length-take-le};

use crate::amendable::Amendable;
use crate::entered::Entered;
use crate::layer::AmendmentLayer;
use calendars::{Calendar, Code, Layer};
use dates::Day;
use faults::CalendarFault;
use tables::{find, insert, remove};

impl<K: Calendar> AmendmentLayer<K> {
    /// A layer without entries, of a number from 1 to 15; any other counts as 15.
    pub fn new(under: K, number: u8) -> AmendmentLayer<K>
        ensures { layer_now K.Calendar.codes result ≡ meaning (K.Calendar.codes under) (record { under = K.Calendar.codes under; entered = []; number = layer_of number }) }
    {
        let empty = Entered {
            day: Day(0),
            code: Code::new(0),
        };
        AmendmentLayer {
            under,
            layer: Layer::new(number),
            entries: [empty; 200],
            count: 0,
        }
    }

    /// Where the day's entry is, or else where it belongs.
    fn find(&self, day: Day) -> Result<usize, usize>
        ensures is { result ≡ found day_of day.0 (entries_of self.now) }
        ensures bound { Within self.now.count result }
    {
        find(&self.entries[..self.count], u64::from(day.0))
    }

    /// Enters a day with a code; one that is entered has its one entry altered.
    fn amend(&mut self, day: Day, code: Code) -> Result<(), CalendarFault>
        ensures answer { told calendar_refusal result ≡ amend_answer (layer_now K.Calendar.codes self.old).rest day.0 }
        ensures after { layer_now K.Calendar.codes self.new ≡ if_granted (told calendar_refusal result) (amended (layer_now K.Calendar.codes self.old) day.0 code.value) (layer_now K.Calendar.codes self.old) }
    {
        day.checked()?;
        if let Ok(at) = self.find(day) {
            self.entries[at].code = code;
            return Ok(());
        }
        if !insert(&mut self.entries, self.count, Entered { day, code }) {
            return Err(CalendarFault::EntriesFull);
        }
        self.count += 1;
        Ok(())
    }
}

impl<K: Calendar> Calendar for AmendmentLayer<K> {
    ghost codes = { λ s. (layer_now K.Calendar.codes s).codes };

    ghost small = { λ s d. layer_small (entries_of s) (K.Calendar.codes s.under d) d (K.Calendar.small s.under d) };

    fn code(&self, day: Day) -> Result<u8, CalendarFault> {
        let under = self.under.code(day)?;
        // A match: with `map_or`, the proof of what is returned did not close.
        match self.find(day) {
            Ok(at) => Ok(self.entries[at].code.value()),
            Err(_) => Ok(under),
        }
    }
}

impl<K: Calendar> Amendable for AmendmentLayer<K> {
    ghost rest = { λ s. (layer_now K.Calendar.codes s).rest };

    ghost numbered = { λ s. s.layer.within };

    ghost small = { λ s. K.Calendar.small s.under };

    ghost risen = { λ s. rising_map day_of itself 0 (entries_of s) ∙ s.risen };

    ghost few = { λ s. omega (arith, length-map (entries_of s) day_of, length-take-le s.count s.entries (omega arith)) };

    fn code_under(&self, day: Day) -> Result<u8, CalendarFault> {
        self.under.code(day)
    }

    fn is_entered(&self, day: Day) -> Result<bool, CalendarFault> {
        day.checked()?;
        Ok(self.find(day).is_ok())
    }

    fn entry_count(&self) -> usize {
        self.count
    }

    fn number(&self) -> u8 {
        self.layer.number()
    }

    fn close(&mut self, day: Day) -> Result<(), CalendarFault> {
        self.amend(day, Code::from(self.layer))
    }

    fn open(&mut self, day: Day) -> Result<(), CalendarFault> {
        self.amend(day, Code::new(0))
    }

    fn restore(&mut self, day: Day) -> Result<(), CalendarFault> {
        day.checked()?;
        if !remove(&mut self.entries, self.count, u64::from(day.0)) {
            return Err(CalendarFault::NotEntered(day.0));
        }
        self.count -= 1;
        Ok(())
    }
}
