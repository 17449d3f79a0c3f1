ghost use Rattle.std.specs.Prelude.{◌+◌, ◌^◌, ◌<◌, length};

/// The lines of an input, one after the other.
#[derive(Drop)]
pub struct Lines<'a> {
    /// The bytes not yet handed out.
    rest: &'a [u8],
    /// The number of the next line.
    number: usize,
    ghost few: { number + length rest.now < 2 ^ 64 },
}

mod calls;
