//! Words that are numbers.
ghost use Rattle.std.specs.Prelude.{◌≡◌, ℕ, ◌<◌, ◌≤◌};
ghost use Rattle.std.proofs.Common.{rules, lit<};
ghost use Rattle.syntax.specs.Numbers.{digit_in, number_of, as_number, IsUnsigned, usize_max};

use crate::digit::digit;
use crate::fault::Fault;
use std::num::TryFromIntError;

/// An unsigned type, of which words say numbers.
pub trait Unsigned: TryFrom<u128, Error = TryFromIntError> {
    /// The greatest number of the type.
    ghost greatest: { ℕ };

    /// The number that a value is.
    ghost number: { Self → ℕ };

    ghost laws: { IsUnsigned greatest number Self.try_from_gives };
}

impl Unsigned for u8 {
    ghost greatest = { 255 };

    ghost number = { λ n. n };

    ghost laws = { record { low = lit< tt; held = Prim.search rules } };
}

impl Unsigned for u16 {
    ghost greatest = { 65535 };

    ghost number = { λ n. n };

    ghost laws = { record { low = lit< tt; held = Prim.search rules } };
}

impl Unsigned for u32 {
    ghost greatest = { 4294967295 };

    ghost number = { λ n. n };

    ghost laws = { record { low = lit< tt; held = Prim.search rules } };
}

impl Unsigned for usize {
    ghost greatest = { usize_max };

    ghost number = { λ n. n };

    ghost laws = { record { low = lit< tt; held = Prim.search rules } };
}

// The value of a digit of the base; none for another byte.
fn digit_in(base: u128, byte: u8) -> Option<u8>
    ensures { result ≡ digit_in base byte }
{
    digit(byte).filter(|value| u128::from(*value) < base)
}

// Past every limit. A number that has come so far stays there, whatever follows: so neither the product nor the sum of a digit can
// overflow, and no digit has to be asked whether it did.
const PAST_ANY: u128 = 0x1_0000_0000_0000_0000;

// The number that a word says in a base.
fn number<T: Unsigned>(base: u128, word: &[u8]) -> Result<T, Fault>
    requires low { 1 ≤ base }
    requires high { base ≤ 16 }
    ensures { as_number T.number result ≡ number_of base T.greatest word.now }
{
    if word.is_empty() {
        return Err(Fault::NoNumber);
    }
    let mut value: u128 = 0;
    for byte in word {
        let digit = digit_in(base, *byte).ok_or(Fault::NoNumber)?;
        value = (value * base + u128::from(digit)).min(PAST_ANY);
    }
    T::try_from(value).map_err(|_| Fault::OutOfRange)
}

/// A number in hexadecimal, of any unsigned type.
pub fn hex<T: Unsigned>(word: &[u8]) -> Result<T, Fault>
    ensures { as_number T.number result ≡ number_of 16 T.greatest word.now }
{
    number(16, word)
}

/// A number in decimal, of any unsigned type.
pub fn decimal<T: Unsigned>(word: &[u8]) -> Result<T, Fault>
    ensures { as_number T.number result ≡ number_of 10 T.greatest word.now }
{
    number(10, word)
}

/// A number in decimal, at most `limit`.
pub fn decimal_at_most(limit: usize, word: &[u8]) -> Result<usize, Fault>
    ensures { result ≡ number_of 10 limit word.now }
{
    let number = decimal(word)?;
    if number > limit {
        return Err(Fault::OutOfRange);
    }
    Ok(number)
}
