ghost use Rattle.std.specs.Prelude.{◌≡◌, take, drop};
ghost use Rattle.notation.specs.Readers.{before};

/// The bytes before the first that is `stop`, or all where none is, and what is left.
pub(crate) fn split_before<'a>(bytes: &'a [u8], stop: u8) -> (&'a [u8], &'a [u8])
    ensures front { result.0.now ≡ take (before stop bytes.now) bytes.now }
    ensures back { result.1.now ≡ drop (before stop bytes.now) bytes.now }
{
    let at = bytes.iter().position(|byte| *byte == stop);
    bytes.split_at(at.unwrap_or(bytes.len()))
}
