ghost use Rattle.std.specs.Prelude.{◌≡◌, ℕ, ◌+◌, ◌≤◌, Bool, List, [], ◌∷◌, take, Some};
ghost use Rattle.std.specs.Result.{result_map_both};
ghost use Rattle.faults.specs.Refusals.{told, generation_refusal};
ghost use Rattle.conventions.specs.Tries.{Served, first_good, Among, Run, count_answer, nth_answer};
ghost use Rattle.dates.specs.declared.day.Day.{Day};

use crate::unadjusted::Unadjusted;
use dates::Day;
use faults::GenerationFault;

/// A business day convention: the days to try for an unadjusted day.
pub trait Convention: Copy {
    /// The letter that stands for it.
    const LETTER: char;

    /// How far from the unadjusted day a day tried may be.
    const REACH: u32;

    /// Its meaning: the days to try, in order, for each unadjusted day.
    ghost tries: { Self → ℕ → List ℕ };

    /// The letter and the reach, for clauses.
    ghost LETTER: { ℕ };

    ghost REACH: { ℕ };

    fn code_letter(&self) -> char
        ensures { result ≡ LETTER }
    {
        Self::LETTER
    }

    fn farthest(&self) -> u32
        ensures { result ≡ REACH }
    {
        Self::REACH
    }

    /// How many days are tried.
    fn count(&self, u: Unadjusted) -> Result<u32, GenerationFault>
        ensures { told generation_refusal result ≡ count_answer (tries self.now) u.0 };

    /// The k-th day tried, from 0.
    fn nth(&self, u: Unadjusted, k: u32) -> Result<Day, GenerationFault>
        ensures { result_map_both (λ (d : Day). d.0) generation_refusal result ≡ nth_answer (tries self.now) u.0 k };

    /// The reach is at most 30 days.
    ghost small: { (c : Self) → REACH ≤ 30 };

    /// The first day tried is the unadjusted one.
    ghost first: { (c : Self) (u : ℕ) → Served u → take 1 (tries c u) ≡ u ∷ [] };

    /// However many of the first days tried are taken, they are different and form an unbroken run.
    ghost run: { (c : Self) (u n : ℕ) → Served u → Run (take n (tries c u)) };

    /// No day tried is farther away than the reach.
    ghost near: { (c : Self) (u d : ℕ) → Served u → Among d (tries c u) → (u ≤ d + REACH) × (d ≤ u + REACH) };

    /// Whatever days are good, a later day never comes to an earlier one.
    ghost order: { (c : Self) (good : ℕ → Bool) (u v a b : ℕ) → Served u → Served v → u ≤ v → first_good good (tries c u) ≡ Some a → first_good good (tries c v) ≡ Some b → a ≤ b };
}
