//! The set of enabled identifiers: 256 bits in four words, handed on by value as the definitions have them.
ghost use Rattle.std.specs.Prelude.{◌≡◌};
ghost use Rattle.event.specs.Identifiers.{has as is_in, switched, any as any_in, Switches};

/// The set without an identifier.
pub const NOTHING: [u64; 4] = [0; 4];

/// Whether the identifier is in the set.
pub fn has(set: [u64; 4], identifier: u8) -> bool
    ensures { result ≡ is_in set identifier }
{
    let word = set[usize::from(identifier / 64)];
    (word >> (identifier % 64)) % 2 == 1
}

/// The set with the identifier switched on or off, and no other.
pub fn with(set: [u64; 4], identifier: u8, on: bool) -> [u64; 4]
    ensures words { result ≡ switched on identifier set }
    ensures others { Switches on identifier set result }
{
    let mut words = set;
    let place = usize::from(identifier / 64);
    let bit = 1u64 << (identifier % 64);
    if on {
        words[place] |= bit;
    } else {
        words[place] &= !bit;
    }
    words
}

/// Whether an identifier is in the set.
pub fn any(set: [u64; 4]) -> bool
    ensures { result ≡ any_in set }
{
    set != NOTHING
}
