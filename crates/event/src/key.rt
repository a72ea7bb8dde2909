//! Unique IDs as keys.
ghost use Rattle.std.specs.Prelude.{bit_xor, fold};
ghost use Rattle.std.specs.Int.{w32, to_le_bytes};
ghost use Rattle.std.specs.Ordering.{ordering_then, nat_cmp};
ghost use Rattle.std.proofs.Common.{rules};

use crate::id::UniqueId;
use keys::Key;
use std::cmp::Ordering;

/// Unique IDs, by identifier, then scope, then scope ID info.
impl Key for UniqueId {
    ghost order = { λ u v. ordering_then (ordering_then (nat_cmp u.identifier v.identifier) (nat_cmp u.scope v.scope)) (nat_cmp u.info v.info) };

    ghost bucket = { λ u. fold bit_xor (bit_xor u.identifier u.scope) (to_le_bytes w32 u.info) };

    ghost same = { Prim.search rules };

    ghost turned = { Prim.search rules };

    ghost chain = { Prim.search rules };

    fn compare(&self, other: &UniqueId) -> Ordering {
        self.cmp(other)
    }

    // IDs that differ in one byte are in different buckets.
    fn bucket(&self) -> u8 {
        let [a, b, c, d] = self.info.to_le_bytes();
        self.identifier ^ self.scope ^ a ^ b ^ c ^ d
    }
}
