ghost use Rattle.std.specs.Prelude.{Some};
ghost use Rattle.sheet.specs.AnswerTexts.{answer_text};

use bonds::Bond;
use notices::Notice;
use std::fmt;

/// What can be asked of a sheet.
#[derive(Clone, Copy)]
pub enum Call {
    /// Enter a bond.
    Enter(Bond),
    /// Retire the bond of a number.
    Retire(u64),
    /// Amend the calendar.
    Amend(Notice),
}

/// What a notice comes to: how many rolls stood on one of its days, and how many payments altered.
#[derive(Clone, Copy, PartialEq, Eq, Debug)]
pub struct Counts {
    pub rolls: u32,
    pub changes: usize,
}

/// What a granted call answers.
#[derive(Clone, Copy, PartialEq, Eq, Debug)]
pub enum Answer {
    /// The bond of this number is live, with so many rolls.
    Entered(u64, u32),
    /// The bond of this number is live no more.
    Retired(u64),
    /// The calendar is amended by this notice.
    Amended(Notice, Counts),
}

impl fmt::Display for Answer {
    ghost output = { λ a. Some (answer_text a) };

    fn fmt<W: fmt::Write>(&self, f: &mut fmt::Formatter<W>) -> fmt::Result {
        match self {
            Answer::Entered(number, rolls) => write!(f, "entered {number} {rolls}"),
            Answer::Retired(number) => write!(f, "retired {number}"),
            Answer::Amended(notice, Counts { rolls, changes }) => match notice {
                Notice::Declare(_) => write!(f, "declared {rolls} {changes}"),
                Notice::Cancel(_) => write!(f, "cancelled {rolls} {changes}"),
                Notice::Move(_, _) => write!(f, "moved {rolls} {changes}"),
                Notice::Withdraw(_) => write!(f, "withdrawn {rolls} {changes}"),
            },
        }
    }
}
