/// A day that a bond's terms give; any number fits, and conventions serve those from 365 to 109,207.
#[derive(Clone, Copy)]
pub struct Unadjusted(pub u32);
