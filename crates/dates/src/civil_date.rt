ghost use Rattle.std.specs.Prelude.{Some};
ghost use Rattle.dates.specs.DateText.{date_text};

use std::fmt;

/// A civil date as it is written; any numbers fit.
#[derive(Clone, Copy, PartialEq, Eq, PartialOrd, Ord, Debug)]
pub struct CivilDate {
    pub year: u16,
    pub month: u8,
    pub day: u8,
}

/// Written as YYYY-MM-DD.
impl fmt::Display for CivilDate {
    ghost output = { λ c. Some (date_text c) };

    fn fmt<W: fmt::Write>(&self, f: &mut fmt::Formatter<W>) -> fmt::Result {
        let year = self.year;
        let month = self.month;
        let day = self.day;
        write!(f, "{year:04}-{month:02}-{day:02}")
    }
}
