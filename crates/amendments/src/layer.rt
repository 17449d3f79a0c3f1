ghost use Rattle.std.specs.Prelude.{◌≡◌, ◌≤◌, true, length, take};
ghost use Rattle.tables.specs.Tables.{rising};
ghost use Rattle.amendments.specs.Layers.{day_of};

use crate::entered::Entered;
use calendars::Layer;

/// The amendment layer: a calendar with up to 200 days closed or opened on top of it.
#[derive(Drop)]
pub struct AmendmentLayer<K> {
    under: K,
    layer: Layer,
    // A fixed array and a count: no call may fail for want of memory.
    entries: [Entered; 200],
    count: usize,
    ghost within: { (count ≤ 200) × (length entries ≡ 200) },
    ghost risen: { rising day_of 0 (take count entries) ≡ true },
}

mod calls;
