use crate::bench::Bench;
use crate::lines::check_lines;
use amendments::Amendable;
use conventions::Convention;
use faults::Fault;
use notices::Notice;
use sheet::Counts;
use std::process::Abort;
use std::test::Fail;

impl<R: Abort + AllocGlobal, P: Amendable, C: Convention> Bench<'_, R, P, C> {
    /// The places of the list hold these changes, as they are printed, or nothing where a line is empty.
    pub(crate) fn lists(&self, lines: [&str; 4]) -> Result<(), Fail> {
        check_lines(self.rt, self.rt.alloc(), &self.list, &lines)
    }

    /// A notice brings so many places of the list.
    fn brings(&mut self, places: usize, notice: Notice) -> Result<Counts, Fault> {
        let mut list = self.list;
        let answer = self.sheet.amend(notice, &mut list[..places.min(4)]);
        self.list = list;
        answer
    }

    /// A notice that brings so many places of the list is granted: so many rolls are counted, and the first places hold these changes.
    pub(crate) fn grants_in(
        &mut self,
        places: usize,
        notice: Notice,
        rolls: u32,
        lines: &[&str],
    ) -> Result<(), Fail> {
        let counts = Counts {
            rolls,
            changes: lines.len(),
        };
        assert_eq!(self.rt; self.brings(places, notice), Ok(counts));
        let written = &self.list[..lines.len().min(4)];
        check_lines(self.rt, self.rt.alloc(), written, lines)
    }

    /// A notice that brings the whole list is granted so.
    pub(crate) fn grants(
        &mut self,
        notice: Notice,
        rolls: u32,
        lines: &[&str],
    ) -> Result<(), Fail> {
        self.grants_in(4, notice, rolls, lines)
    }

    /// A notice that brings so many places of the list is refused.
    pub(crate) fn denies_in(
        &mut self,
        places: usize,
        notice: Notice,
        fault: Fault,
    ) -> Result<(), Fail> {
        assert_eq!(self.rt; self.brings(places, notice), Err(fault));
        Ok(())
    }

    /// A notice that brings the whole list is refused.
    pub(crate) fn denies(&mut self, notice: Notice, fault: Fault) -> Result<(), Fail> {
        self.denies_in(4, notice, fault)
    }
}
