ghost use Rattle.std.specs.Prelude.{◌≡◌, ℕ, ◌^◌, ◌<◌, ◌≤◌, length, IfSome, Some};
ghost use Rattle.notation.specs.Readers.{Exactly};
ghost use Rattle.notation.specs.Numerals.{digits_of, plain, number_of, Numeral};

/// The most digits that a number may have.
const MOST_DIGITS: usize = 12;

/// The number that the digits write, if each byte is a digit.
pub(crate) fn digits_of(text: &[u8]) -> Option<u64>
    requires { length text.now ≤ 12 }
    ensures is { result ≡ digits_of text.now }
    ensures bound { IfSome result (λ v. v < 10 ^ length text.now) }
{
    let mut value: u64 = 0;
    for byte in text {
        if !byte.is_ascii_digit() {
            return None;
        }
        value = value * 10 + u64::from(*byte - b'0');
    }
    Some(value)
}

/// Whether a text has 1 to 12 bytes, the first a `0` only where it is alone.
fn is_plain(text: &[u8]) -> bool
    ensures { result ≡ plain text.now }
{
    match text {
        [] => false,
        [b'0', rest @ ..] => rest.is_empty(),
        _ => text.len() <= MOST_DIGITS,
    }
}

/// The number that a text of 1 to 12 digits writes, the first 0 only in `0` itself.
pub fn number_of(text: &[u8]) -> Option<u64>
    ensures is { result ≡ number_of text.now }
    ensures exactly { (n : ℕ) → Exactly (result ≡ Some n) (Numeral text.now n) }
{
    if is_plain(text) {
        digits_of(text)
    } else {
        None
    }
}
