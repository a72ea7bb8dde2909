//! Words that are strings of bytes.
ghost use Rattle.std.specs.Prelude.{◌≡◌, true, IsOk};
ghost use Rattle.syntax.specs.Strings.{Gives, is_dash, pairs_of, bytes_of};

use crate::digit::digit;
use crate::fault::Fault;
use std::alloc::Global;

/// Whether a word is just `-`.
pub fn is_dash(word: &[u8]) -> bool
    ensures { result ≡ is_dash word.now }
{
    matches!(word, [b'-'])
}

// The bytes of pairs of hexadecimal digits.
fn pairs(heap: Global, word: &[u8]) -> Result<Vec<u8>, Fault>
    ensures { Gives result (pairs_of word.now) }
{
    let (pairs, rest) = word.as_chunks::<2>();
    let mut bytes = Vec::new(heap);
    for [high, low] in pairs {
        let high = digit(*high).ok_or(Fault::NoDigits)?;
        let low = digit(*low).ok_or(Fault::NoDigits)?;
        bytes.push(high * 16 + low)?;
    }
    if !rest.is_empty() {
        return Err(Fault::OddDigits);
    }
    Ok(bytes)
}

/// The bytes that a word says: pairs of hexadecimal digits, or `-` for none, which takes no memory.
pub fn bytes(heap: Global, word: &[u8]) -> Result<Vec<u8>, Fault>
    ensures said { Gives result (bytes_of word.now) }
    ensures none { is_dash word.now ≡ true → IsOk result }
{
    if is_dash(word) {
        return Ok(Vec::new(heap));
    }
    pairs(heap, word)
}
