ghost use Rattle.std.specs.Prelude.{◌≡◌, ℕ, ◌≤◌, Bool, length};
ghost use Rattle.faults.specs.Refusals.{told, calendar_refusal};
ghost use Rattle.dates.specs.Civil.{asked};

use crate::layer::Layer;
use dates::Day;
use faults::CalendarFault;

/// An entry of a rule, which closes days of its own kind in every year.
pub trait Entry: Copy + Default {
    /// In range, and a day that some year has.
    ghost possible: { Self → Bool };

    /// Two entries that a rule may not both hold.
    ghost clashes: { Self → Self → Bool };

    /// The days that it closes.
    ghost closes: { Self → ℕ → Bool };

    /// Whether a rule may hold it.
    fn is_possible(&self) -> bool
        ensures { result ≡ possible self.now };

    /// Whether it and another may not both be held.
    fn clashes_with(&self, other: &Self) -> bool
        ensures { result ≡ clashes self.now other.now };

    /// Whether it closes the day.
    fn closes_on(&self, day: Day) -> Result<bool, CalendarFault>
        ensures { told calendar_refusal result ≡ asked day.0 (closes self.now day.0) };
}

// No `impl Model`: of a value of entries and any number as layer, the law that codes are at most 15 would be false.
/// A calendar of up to `N` entries, added one at a time.
#[derive(Drop)]
pub struct Rule<E, const N: usize> {
    // Fixed places and a count: a calendar takes no memory, so no call fails for want of it.
    entries: [E; N],
    count: usize,
    layer: Layer,
    ghost within: { (count ≤ N) × (length entries ≡ N) },
}

mod calls;
