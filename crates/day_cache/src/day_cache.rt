ghost use Rattle.std.specs.Prelude.{◌≡◌, ℕ, ◌≤◌};
ghost use Rattle.day_cache.specs.Caches.{start_day, Faithful, Faithful-prop};

use crate::kept_days::KeptDays;
use amendments::Amendable;
use calendars::Calendar;
use dates::Day;
use faults::CalendarFault;

/// An amendable calendar with the codes of 1,024 of its days kept.
#[derive(Drop)]
pub struct DayCache<P: Calendar> {
    lower: P,
    kept: KeptDays,
    pub ghost faithful: { Faithful kept.words kept.start (P.Calendar.codes lower) } by { Faithful-prop kept.words kept.start (P.Calendar.codes lower) },
}

impl<P: Amendable> DayCache<P> {
    /// The cache of the days from a start, filled; a start above 108,549 counts as 108,549.
    pub fn new(lower: P, start: Day) -> DayCache<P>
        ensures { (result.lower ≡ lower) × (result.kept.start ≡ start_day start.0) }
    {
        let kept = KeptDays::new(&lower, start);
        DayCache { lower, kept }
    }
}

impl<P: Amendable> Calendar for DayCache<P> {
    ghost codes = { λ s. P.Calendar.codes s.lower };

    ghost small = { λ s. P.Calendar.small s.lower };

    fn code(&self, day: Day) -> Result<u8, CalendarFault> {
        if let Some(code) = self.kept.code(day) {
            return Ok(code);
        }
        self.lower.code(day)
    }
}

impl<P: Amendable> Amendable for DayCache<P> {
    ghost rest = { λ s. P.Amendable.rest s.lower };

    ghost numbered = { λ s. P.Amendable.numbered s.lower };

    ghost small = { λ s. P.Amendable.small s.lower };

    ghost risen = { λ s. P.Amendable.risen s.lower };

    ghost few = { λ s. P.Amendable.few s.lower };

    fn code_under(&self, day: Day) -> Result<u8, CalendarFault> {
        self.lower.code_under(day)
    }

    fn is_entered(&self, day: Day) -> Result<bool, CalendarFault> {
        self.lower.is_entered(day)
    }

    fn entry_count(&self) -> usize {
        self.lower.entry_count()
    }

    fn number(&self) -> u8 {
        self.lower.number()
    }

    // Alike but for the call: one body for the three would take that as a closure, and be no shorter with the clauses on it.
    fn close(&mut self, day: Day) -> Result<(), CalendarFault> {
        self.lower.close(day)?;
        self.kept.refresh(&self.lower, day);
        Ok(())
    }

    fn open(&mut self, day: Day) -> Result<(), CalendarFault> {
        self.lower.open(day)?;
        self.kept.refresh(&self.lower, day);
        Ok(())
    }

    fn restore(&mut self, day: Day) -> Result<(), CalendarFault> {
        self.lower.restore(day)?;
        self.kept.refresh(&self.lower, day);
        Ok(())
    }
}
