ghost use Rattle.std.specs.Prelude.{◌≡◌, ◌-◌, ◌<◌, [], ◌∷◌, length, drop, IfSome, MatchOption};
ghost use Rattle.std.specs.Option.{option_map};
ghost use Rattle.notation.specs.InputLines.{lines_of, parts_of};
ghost use Rattle.notation.specs.Handed.{seen, to_come, taken};
ghost use Rattle.std.specs.Iterator.{at_most};

use super::Lines;
use crate::line::{Line, line_of};
use crate::scan::split_before;

/// The first line, if there is one, and what follows its line feed.
fn first_line<'a>(bytes: &'a [u8]) -> Option<(&'a [u8], &'a [u8])>
    ensures is { MatchOption result (lines_of bytes.now ≡ []) (λ p. lines_of bytes.now ≡ p.0.now ∷ lines_of p.1.now) }
    ensures len { IfSome result (λ p. length p.1.now < length bytes.now) }
{
    if bytes.is_empty() {
        return None;
    }
    let (text, tail) = split_before(bytes, b'\n');
    let rest = tail.split_first().map_or(tail, |(_, rest)| rest);
    Some((text, rest))
}

impl<'a> Lines<'a> {
    /// The lines of this input.
    pub fn of(input: &'a [u8]) -> Lines<'a>
        ensures { to_come result ≡ parts_of input.now }
    {
        Lines {
            rest: input,
            number: 1,
        }
    }
}

impl<'a> Iterator for Lines<'a> {
    type Item = Line<'a>;

    ghost can_next = { λ _. Unit {0} };

    ghost next_gives = { λ s r t. (option_map seen r, to_come t) ≡ taken (to_come s) };

    ghost remaining = { λ s. at_most (length (to_come s)) };

    fn next(&mut self) -> Option<Line<'a>> {
        let (text, rest) = first_line(self.rest)?;
        let number = self.number;
        *self = Lines {
            rest,
            number: number + 1,
        };
        Some(line_of(number, text))
    }
}
