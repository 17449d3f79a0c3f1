use dates::Day;
use tables::Keyed;

/// A day that is entered, and its code; any numbers fit.
#[derive(Clone, Copy)]
pub struct Amendment {
    pub day: Day,
    pub code: u8,
}

impl Keyed for Amendment {
    ghost key = { λ e. e.day.0 };

    fn key(&self) -> u64 {
        u64::from(self.day.0)
    }
}
