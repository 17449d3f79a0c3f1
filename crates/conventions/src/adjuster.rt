// Clauses name the good days of the one and the days tried of the other: definitions take a predicate and a list, no calendar.
/// A calendar and a convention, which adjust days together.
#[derive(Drop)]
pub struct Adjuster<'a, K, C> {
    pub calendar: &'a K,
    pub convention: &'a C,
}
