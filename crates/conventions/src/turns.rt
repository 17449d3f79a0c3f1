ghost use Rattle.std.specs.Prelude.{◌≡◌, ℕ, ◌≤◌, List};
ghost use Rattle.conventions.specs.Turns.{turning};
ghost use Rattle.conventions.specs.TurnLaws.{Ending};

// No `impl<T: Turns> Convention for T`: beside such a block the check takes the `impl` of one's own convention for one of two.
/// A convention that tries the days up to a last one, then some before the unadjusted day, the nearest first.
pub(crate) trait Turns: Copy {
    /// How many days before the unadjusted one are tried.
    const BACK: u32;

    ghost BACK: { ℕ };

    /// Its meaning: the days to try for each unadjusted day.
    ghost tries: { ℕ → List ℕ };

    /// The last of the days from the unadjusted one on.
    ghost last: { ℕ → ℕ };

    fn last_day(&self, u: u32) -> u32
        requires { u ≤ 109207 }
        ensures { result ≡ last u };

    /// The days tried are those.
    ghost shape: { (u : ℕ) → tries u ≡ turning (last u) BACK u };

    /// The last day is near, and never falls.
    ghost ending: { Ending last };

    /// At most 30 days before the unadjusted one are tried.
    ghost few: { BACK ≤ 30 };
}

pub(crate) mod calls;
