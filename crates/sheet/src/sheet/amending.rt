ghost use Rattle.std.specs.Prelude.{◌≡◌, map, IfOk};
ghost use Rattle.std.specs.Result.{result_map_both};
ghost use Rattle.faults.specs.Refusals.{told, refusal};
ghost use Rattle.amendments.specs.Meanings.{meaning};
ghost use Rattle.changes.specs.Changes.{seen_place};
ghost use Rattle.notices.specs.Notices.{days_of};
ghost use Rattle.sheet.specs.Notices.{Noticed, counted, noticed};
ghost use Rattle.sheet.specs.Plans.{Replaces};
ghost use Rattle.sheet.specs.SheetViews.{kept_by, seen_sheet};

use crate::call::Counts;
use crate::plan::{counted, retry_places, write_changes};
use crate::sheet::Sheet;
use amendments::Amendable;
use changes::{Change, Turn};
use conventions::{Adjuster, Convention};
use faults::{Fault, SheetFault};
use generation::Schedule;
use notices::{Notice, Trial, amend, check_notice};

/// What a notice comes to, while the calendar is not yet amended.
#[derive(Clone, Copy)]
struct Plan {
    places: [Option<Schedule>; 32],
    counts: Counts,
}

impl<P: Amendable, C: Convention> Sheet<P, C> {
    /// How many rolls stand on one of a notice's days.
    fn counted(&self, notice: Notice) -> u32
        ensures { result ≡ counted (C.Convention.tries self.now.convention) (days_of notice) (kept_by self.now) }
    {
        let (days, count) = notice.days();
        counted(&self.places[..self.count], &self.convention, &days[..count])
    }

    /// What a notice would make of the places, with the payments that would alter in the list; the calendar is only tried.
    // Kept apart from its caller: its arrays would be laid out there for each notice, also for one that counts no roll.
    #[inline(never)]
    fn plan(&self, notice: Notice, list: &mut [Option<Change>]) -> Result<Plan, Fault>
        ensures answer { result_map_both (λ (p : _). p.counts) refusal result ≡ (noticed (C.Convention.tries self.now.convention) (seen_sheet self.now) notice (map seen_place list.old)).answer }
        ensures list { map seen_place list.new ≡ (noticed (C.Convention.tries self.now.convention) (seen_sheet self.now) notice (map seen_place list.old)).list }
        ensures granted { IfOk result (λ p. Replaces (C.Convention.tries self.now.convention) (meaning (P.Calendar.codes self.now.calendar) (P.Amendable.rest self.now.calendar)) notice self.now.count self.now.places p.places) }
    {
        check_notice(&self.calendar, notice)?;
        let (days, count) = notice.days();
        let days = &days[..count];
        let trial = Trial {
            calendar: &self.calendar,
            notice,
        };
        let adjuster = Adjuster {
            calendar: &trial,
            convention: &self.convention,
        };
        let places = retry_places(self.places, self.count, &adjuster, days)?;
        let live = &self.places[..self.count];
        let rolls = counted(live, &self.convention, days);
        let turn = Turn {
            before: &self.calendar,
            after: &trial,
        };
        let written = write_changes(live, &places[..self.count], &turn, list);
        let Some(changes) = written else {
            return Err(Fault::Sheet(SheetFault::ShortList));
        };
        Ok(Plan {
            places,
            counts: Counts { rolls, changes },
        })
    }

    /// Amends the calendar, lists the payments that alter, and counts; a refusal leaves sheet and list as they were.
    pub fn amend(&mut self, notice: Notice, list: &mut [Option<Change>]) -> Result<Counts, Fault>
        ensures step { ◌≡◌ {A = Noticed} (record { sheet = seen_sheet self.new; answer = told refusal result; list = map seen_place list.new }) (noticed (C.Convention.tries self.old.convention) (seen_sheet self.old) notice (map seen_place list.old)) }
        ensures convention { self.new.convention ≡ self.old.convention }
    {
        if self.counted(notice) == 0 {
            // A glance at each roll is all that this notice costs.
            let calendar = &mut self.calendar;
            amend(calendar, notice)?;
            return Ok(Counts {
                rolls: 0,
                changes: 0,
            });
        }
        let Plan { places, counts } = self.plan(notice, list)?;
        // Nothing is refused from here on: only now does the calendar change, and the places with it.
        amend(&mut self.calendar, notice)?;
        self.places = places;
        Ok(counts)
    }
}
