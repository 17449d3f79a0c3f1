ghost use Rattle.std.specs.Prelude.{◌≡◌};
ghost use Rattle.faults.specs.Refusals.{told, text_refusal};
ghost use Rattle.notation.specs.InputLines.{part, number_of_part};
ghost use Rattle.notation.specs.Handed.{seen};
ghost use Rattle.notation.specs.Entries.{line_answer};

use crate::fields::entry_of;
use faults::TextFault;
use sheet::Call;

/// The most bytes that a line may have before its line feed.
pub const LONGEST_LINE: usize = 100;

// An enum whose cases borrow parts of the input: a line too long hands out no bytes.
/// A line with its number, from 1, and its bytes as a part of the input.
#[derive(Clone, Copy, Debug)]
pub enum Line<'a> {
    /// An empty line, or one that begins with `#`.
    Remark { number: usize, text: &'a [u8] },
    /// Any other line.
    Entry { number: usize, text: &'a [u8] },
    /// A line of more than `LONGEST_LINE` bytes.
    TooLong { number: usize },
}

/// The line of these bytes and this number.
pub(crate) fn line_of<'a>(number: usize, text: &'a [u8]) -> Line<'a>
    ensures { seen result ≡ part number text.now }
{
    if text.len() > LONGEST_LINE {
        return Line::TooLong { number };
    }
    match text {
        [] | [b'#', ..] => Line::Remark { number, text },
        _ => Line::Entry { number, text },
    }
}

impl<'a> Line<'a> {
    /// The line's number, from 1.
    pub fn number(&self) -> usize
        ensures { result ≡ number_of_part (seen self.now) }
    {
        match self {
            Line::Remark { number, .. } | Line::Entry { number, .. } | Line::TooLong { number } =>
                *number,
        }
    }

    /// What the line asks for: nothing if it is a remark; refused if it is too long or has not the form of an entry.
    pub fn read(self) -> Result<Option<Call>, TextFault>
        ensures { told text_refusal result ≡ line_answer (seen self.entry) }
    {
        match self {
            Line::Remark { .. } => Ok(None),
            Line::Entry { number, text } => entry_of(text)
                .map(Some)
                .ok_or(TextFault::BadLine(number)),
            Line::TooLong { number } => Err(TextFault::BadLine(number)),
        }
    }
}
