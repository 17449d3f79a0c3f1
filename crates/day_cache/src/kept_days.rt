ghost use Rattle.std.specs.Prelude.{◌≡◌, ◌-◌, ◌≤◌, length, Some, None, if◌then◌else◌};
ghost use Rattle.amendments.specs.Meanings.{recoded};
ghost use Rattle.day_cache.specs.Nibbles.{kept_code};
ghost use Rattle.day_cache.specs.Caches.{cached, cache_codes, start_day, Faithful};

use crate::nibbles::{keep_code, kept_code};
use amendments::Amendable;
use calendars::Code;
use dates::Day;

/// How many days are kept.
const DAYS: u32 = 1_024;

/// The last day from which so many are days of the calendars.
const LAST_START: u32 = 108_549;

/// The codes of 1,024 days from a start, sixteen to a word.
#[derive(Drop)]
pub(crate) struct KeptDays {
    start: u32,
    // A fixed array: no call may fail for want of memory.
    words: [u64; 64],
    ghost within: { (start ≤ 108549) × (length words ≡ 64) },
}

impl KeptDays {
    /// The codes of the days from a start, read from a calendar; a start above 108,549 counts as 108,549.
    pub(crate) fn new<P: Amendable>(lower: &P, start: Day) -> KeptDays
        ensures start { result.start ≡ start_day start.0 }
        ensures faithful { Faithful result.words result.start (P.Calendar.codes lower.now) }
    {
        let start = start.0.min(LAST_START);
        let mut kept = KeptDays {
            start,
            words: [0; 64],
        };
        for day in start..start + DAYS {
            kept.refresh(lower, Day(day));
        }
        kept
    }

    /// The place of a day, if it is one of them.
    fn place_of(&self, day: Day) -> Option<u32>
        ensures { result ≡ (if cached self.now.start day.0 then Some (day.0 - self.now.start) else None) }
    {
        day.0.checked_sub(self.start).filter(|k| *k < DAYS)
    }

    /// The code of a day, if it is one of them.
    pub(crate) fn code(&self, day: Day) -> Option<u8>
        ensures { result ≡ (if cached self.now.start day.0 then Some (kept_code self.now.words (day.0 - self.now.start)) else None) }
    {
        self.place_of(day).map(|k| kept_code(&self.words, k))
    }

    /// Reads a day afresh from the calendar, if it is one of them.
    pub(crate) fn refresh<P: Amendable>(&mut self, lower: &P, day: Day)
        ensures start { self.new.start ≡ self.old.start }
        ensures codes { cache_codes self.new.words self.new.start (P.Calendar.codes lower.now) ≡ recoded (cache_codes self.old.words self.old.start (P.Calendar.codes lower.now)) day.0 (P.Calendar.codes lower.now day.0) }
    {
        if let Some(k) = self.place_of(day)
            && let Ok(code) = lower.code(day)
        {
            keep_code(&mut self.words, k, Code::new(code));
        }
    }
}
