ghost use Rattle.std.specs.Prelude.{◌≡◌, ◌<◌, length};
ghost use Rattle.amendments.specs.Meanings.{recoded};
ghost use Rattle.day_cache.specs.Nibbles.{nibble, with_nibble, kept_code};

use calendars::Code;

/// The code at a place of a word.
fn nibble(word: u64, place: u32) -> u8
    requires { place < 16 }
    ensures { result ≡ nibble word place }
{
    // Narrowed by `as`: what the mask leaves is at most 15.
    ((word >> (4 * place)) & 15) as u8
}

/// The word with another code at a place.
fn with_nibble(word: u64, place: u32, code: Code) -> u64
    requires { place < 16 }
    ensures { result ≡ with_nibble word place code.value }
{
    let shift = 4 * place;
    let low = word & ((1 << shift) - 1);
    let high = (word >> shift) >> 4;
    let joined = (high << 4) | u64::from(code.value());
    (joined << shift) | low
}

/// The code at place k of a row of words.
pub(crate) fn kept_code(words: &[u64], k: u32) -> u8
    requires { (length words.now ≡ 64) × (k < 1024) }
    ensures { result ≡ kept_code words.now k }
{
    // `as`: there is no `From` of a u32 for a usize.
    nibble(words[(k / 16) as usize], k % 16)
}

/// Replaces the code at place k of a row of words.
pub(crate) fn keep_code(words: &mut [u64], k: u32, code: Code)
    requires { (length words.old ≡ 64) × (k < 1024) }
    ensures { kept_code words.new ≡ recoded (kept_code words.old) k code.value }
{
    // `as`, as in `kept_code`.
    let at = (k / 16) as usize;
    words[at] = with_nibble(words[at], k % 16, code);
}
