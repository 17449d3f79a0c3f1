ghost use Rattle.std.specs.Prelude.{◌≡◌, ◌≤◌, map, take};
ghost use Rattle.dates.specs.declared.day.Day.{Day};
ghost use Rattle.notices.specs.Notices.{days_of};

use dates::Day;

/// What a notice asks of a calendar.
// An enum and no closure: definitions and laws speak of notices as data.
#[derive(Clone, Copy, PartialEq, Eq, Debug)]
pub enum Notice {
    /// Close a good day.
    Declare(Day),
    /// Open a closed day.
    Cancel(Day),
    /// Open the first day, then close the second.
    Move(Day, Day),
    /// Give a day the code under it.
    Withdraw(Day),
}

impl Notice {
    /// The days that it amends, at the front, and how many they are.
    pub fn days(&self) -> ([Day; 2], usize)
        ensures days { map (λ (d : Day). d.0) (take result.1 result.0) ≡ days_of self.now }
        ensures few { result.1 ≤ 2 }
    {
        match *self {
            Notice::Declare(day) | Notice::Cancel(day) | Notice::Withdraw(day) => ([day, day], 1),
            Notice::Move(from, to) => ([from, to], 2),
        }
    }
}
