ghost use Rattle.std.specs.Prelude.{Some};
ghost use Rattle.std.specs.Option.{option_map};
ghost use Rattle.generation.specs.Views.{number_of};
ghost use Rattle.changes.specs.Changes.{seen_change};
ghost use Rattle.changes.specs.ChangeTexts.{optional_date, change_text};

use dates::Day;
use generation::Payment;
use std::fmt;

/// A payment that altered.
#[derive(Clone, Copy)]
pub struct Change {
    /// The bond's number.
    pub bond: u32,
    /// The payment's number, from 1.
    pub payment: u32,
    pub old: Payment,
    pub new: Payment,
    /// The code of the old date after the notice.
    pub closes_old: u8,
    /// The code of the new date before the notice.
    pub closed_new: u8,
}

/// A date as it is printed, or a hyphen.
#[derive(Clone, Copy)]
struct OptionalDate(Option<Day>);

impl fmt::Display for OptionalDate {
    ghost output = { λ d. Some (optional_date (option_map number_of d.0)) };

    fn fmt<W: fmt::Write>(&self, f: &mut fmt::Formatter<W>) -> fmt::Result {
        let date = self.0.and_then(|day| day.civil_date().ok());
        match date {
            Some(date) => write!(f, "{date}"),
            None => write!(f, "-"),
        }
    }
}

/// Bond and payment, then dates, fixings, days and amounts, old before new, then the two codes.
impl fmt::Display for Change {
    ghost output = { λ c. Some (change_text (seen_change c)) };

    fn fmt<W: fmt::Write>(&self, f: &mut fmt::Formatter<W>) -> fmt::Result {
        let Change {
            bond,
            payment,
            old,
            new,
            ..
        } = *self;
        let old_date = OptionalDate(Some(old.date.day()));
        let new_date = OptionalDate(Some(new.date.day()));
        let old_fixing = OptionalDate(old.fixing);
        let new_fixing = OptionalDate(new.fixing);
        write!(
            f,
            "{bond} {payment} {old_date} {new_date} {old_fixing} {new_fixing}"
        )?;
        write!(
            f,
            " {} {} {} {}",
            old.days, new.days, old.amount, new.amount
        )?;
        write!(f, " {} {}", self.closes_old, self.closed_new)
    }
}
