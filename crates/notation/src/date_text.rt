ghost use Rattle.std.specs.Prelude.{◌≡◌, Some};
ghost use Rattle.notation.specs.Readers.{Exactly};
ghost use Rattle.notation.specs.DateTexts.{civil_of, date_of, Dated};

use crate::numeral::digits_of;
use dates::{CivilDate, Day};

/// The civil date that is written YYYY-MM-DD, whether or not it exists.
fn civil_of(text: &[u8]) -> Option<CivilDate>
    ensures { result ≡ civil_of text.now }
{
    let [_, _, _, _, b'-', _, _, b'-', _, _] = text else {
        return None;
    };
    let year = digits_of(&text[0..4])?;
    let month = digits_of(&text[5..7])?;
    let day = digits_of(&text[8..10])?;
    // Narrowed by `as`: four digits and two leave no error that `try_from` could give.
    Some(CivilDate {
        year: year as u16,
        month: month as u8,
        day: day as u8,
    })
}

/// The day of a date that is written YYYY-MM-DD, if it exists and lies in 1900 to 2199.
pub fn date_of(text: &[u8]) -> Option<Day>
    ensures is { result ≡ date_of text.now }
    ensures exactly { (d : Day) → Exactly (result ≡ Some d) (Dated text.now d) }
{
    let date = civil_of(text)?;
    date.day().ok()
}
