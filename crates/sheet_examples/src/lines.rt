use changes::Change;
use std::alloc::{AllocError, Global};
use std::process::Abort;
use std::test::Fail;

/// A change as it is printed, and nothing for a place without one.
fn printed(heap: Global, place: &Option<Change>) -> Result<String, AllocError> {
    match place {
        Some(change) => change.to_string(heap),
        None => Ok(String::new(heap)),
    }
}

/// So many places as there are lines hold these changes, as they are printed; an empty line stands for no change.
pub(crate) fn check_lines(
    rt: &impl Abort,
    heap: Global,
    places: &[Option<Change>],
    lines: &[&str],
) -> Result<(), Fail> {
    assert_eq!(rt; places.len(), lines.len());
    for (place, line) in places.iter().zip(lines) {
        assert_eq!(rt; printed(heap, place)?.as_str(), *line);
    }
    Ok(())
}
