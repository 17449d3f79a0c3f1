ghost use Rattle.std.specs.Prelude.{◌≡◌, ℕ};
ghost use Rattle.std.specs.Option.{option_map_or};

/// A record that a table keeps by its key.
pub trait Keyed: Copy {
    ghost key: { Self → ℕ };

    fn key(&self) -> u64
        ensures { result ≡ key self.now };
}

/// A place that holds a record or none; without one its key is 0.
impl<R: Keyed> Keyed for Option<R> {
    ghost key = { λ place. option_map_or R.Keyed.key place 0 };

    fn key(&self) -> u64 {
        self.map_or(0, |record| record.key())
    }
}
