ghost use Rattle.std.specs.Prelude.{◌≡◌, Some};
ghost use Rattle.std.specs.Option.{option_map};
ghost use Rattle.notation.specs.Readers.{Took, Exactly};
ghost use Rattle.notation.specs.Entries.{field_at, number_at, date_at, at_end, bond_at, retired_at, one_date_at, move_at, notice_by, entry_by, entry_of};
ghost use Rattle.notation.specs.Spellings.{spelling, Typeable};

use crate::date_text::date_of;
use crate::numeral::number_of;
use crate::scan::split_before;
use bonds::Bond;
use dates::Day;
use notices::Notice;
use sheet::Call;

/// What is left of a line.
#[derive(Drop)]
struct Fields<'a> {
    rest: &'a [u8],
}

impl<'a> Fields<'a> {
    /// The bytes after one space, up to the next.
    fn field(&mut self) -> Option<&'a [u8]>
        ensures { Took (field_at self.old.rest.now) (option_map (λ x. x.now) result) self.new.rest.now }
    {
        let bytes = self.rest.strip_prefix(b" ")?;
        let (text, rest) = split_before(bytes, b' ');
        self.rest = rest;
        Some(text)
    }

    // Two readers of two lines each: one for both would take the reader as a closure, and clauses on that.
    /// The next field as a number.
    fn number(&mut self) -> Option<u64>
        ensures { Took (number_at self.old.rest.now) result self.new.rest.now }
    {
        let text = self.field()?;
        number_of(text)
    }

    /// The next field as a date.
    fn date(&mut self) -> Option<Day>
        ensures { Took (date_at self.old.rest.now) result self.new.rest.now }
    {
        let text = self.field()?;
        date_of(text)
    }

    /// A bond's nine fields, and nothing after them.
    fn bond(&mut self) -> Option<Bond>
        ensures { result ≡ bond_at self.old.rest.now }
    {
        let number = self.number()?;
        let effective = self.date()?;
        let maturity = self.date()?;
        let months = self.number()?;
        let stub = self.number()?;
        let mark = self.number()?;
        let lag = self.number()?;
        let face = self.number()?;
        let rate = self.number()?;
        self.at_end(Bond {
            number,
            effective,
            maturity,
            months,
            stub,
            mark,
            lag,
            face,
            rate,
        })
    }

    /// A value, if nothing is left after it.
    fn at_end<T: Copy>(&self, value: T) -> Option<T>
        ensures { result ≡ at_end self.now.rest.now value }
    {
        self.rest.is_empty().then_some(value)
    }

    /// The number of a bond, and nothing after it.
    fn retired(&mut self) -> Option<u64>
        ensures { result ≡ retired_at self.old.rest.now }
    {
        let number = self.number()?;
        self.at_end(number)
    }

    /// One date, and nothing after it.
    fn one_date(&mut self) -> Option<Day>
        ensures { result ≡ one_date_at self.old.rest.now }
    {
        let day = self.date()?;
        self.at_end(day)
    }

    /// The date to open and the date to close, and nothing after them.
    fn moved(&mut self) -> Option<Notice>
        ensures { result ≡ move_at self.old.rest.now }
    {
        let from = self.date()?;
        let to = self.date()?;
        self.at_end(Notice::Move(from, to))
    }

    /// The notice whose form the letter decides.
    fn notice(&mut self, letter: char) -> Option<Notice>
        ensures { result ≡ notice_by letter self.old.rest.now }
    {
        match letter {
            'D' => self.one_date().map(Notice::Declare),
            'C' => self.one_date().map(Notice::Cancel),
            'M' => self.moved(),
            'W' => self.one_date().map(Notice::Withdraw),
            _ => None,
        }
    }

    /// The entry whose form the letter decides.
    fn entry(&mut self, letter: char) -> Option<Call>
        ensures { result ≡ entry_by letter self.old.rest.now }
    {
        // A match on the letters that begin an entry: each decides the form of what follows.
        match letter {
            'B' => self.bond().map(Call::Enter),
            'X' => self.retired().map(Call::Retire),
            _ => self.notice(letter).map(Call::Amend),
        }
    }
}

/// The entry that a line holds, if it has the form of one.
pub fn entry_of(line: &[u8]) -> Option<Call>
    ensures is { result ≡ entry_of line.now }
    ensures exactly { (c : Call) → Exactly (result ≡ Some c) ((line.now ≡ spelling c) × Typeable c) }
{
    let (letter, rest) = line.split_first()?;
    let mut fields = Fields { rest };
    fields.entry(char::from(*letter))
}
