//! The search for a key in a row of keys: one text for every kind of key.
#![tactic(auto)]

ghost use Rattle.std.specs.Prelude.{◌≡◌, ℕ, Bool, true, false};
ghost use Rattle.std.specs.declared.cmp.Ordering.TheVariants.{Less};
ghost use Rattle.std.specs.declared.cmp.Ordering.{Ordering};
ghost use Rattle.std.specs.Ordering.{is_eq, ordering_reverse, nat_cmp};
ghost use Rattle.keys.specs.Keys.{Sought, Test, twice};
ghost use Rattle.std.proofs.Common.{rules};

use std::cmp::Ordering;

/// A kind of key: values in a total order, in which two are equal exactly if they are the same value.
pub trait Key: Sized {
    /// How the first key compares with the second.
    ghost order: { Self → Self → Ordering };

    /// Which of 256 buckets the key is in. Keys in different buckets differ, so only those in one bucket need be compared.
    ghost bucket: { Self → ℕ };

    /// How this key compares with the other one.
    // Beside `cmp`, which for bytes is the library's: an edit of the gate turns each kind's comparison round here.
    fn compare(&self, other: &Self) -> Ordering
        ensures { result ≡ order self.now other.now };

    /// The bucket of this key.
    fn bucket(&self) -> u8
        ensures { result ≡ bucket self.now };

    /// Two keys are equal in the order exactly if they are the same.
    ghost same: { Test (λ x y. is_eq (order x y)) };

    /// With the two keys exchanged, the answer is reversed.
    ghost turned: { (x y : Self) → order y x ≡ ordering_reverse (order x y) };

    /// A key that is less than a second, which is less than a third, is less than the third.
    ghost chain: { (x y z : Self) → order x y ≡ Less → order y z ≡ Less → order x z ≡ Less };
}

/// Bytes, by their number.
impl Key for u8 {
    ghost order = { nat_cmp };

    ghost bucket = { λ byte. byte };

    ghost same = { Prim.search rules };

    ghost turned = { Prim.search rules };

    ghost chain = { Prim.search rules };

    fn compare(&self, other: &u8) -> Ordering {
        self.cmp(other)
    }

    fn bucket(&self) -> u8 {
        *self
    }
}

/// The first place of the key in the row, or none where it stands nowhere.
pub fn find<K: Key>(keys: &[K], key: &K) -> Option<usize>
    ensures { Sought keys.now key.now result }
{
    keys.iter().position(|x| x.compare(key).is_eq())
}

/// Whether a key stands in the row twice.
pub fn has_twice<K: Key>(keys: &[K]) -> bool
    ensures { (same : K → K → Bool) → Test same → result ≡ twice same keys.now }
{
    // Rows mostly ascend, since boards do, and one pass tells so.
    !ascends(keys) && repeats(keys)
}

// Whether each key is less than the next. Then none stands there twice.
fn ascends<K: Key>(keys: &[K]) -> bool
    ensures { (same : K → K → Bool) → Test same → result ≡ true → twice same keys.now ≡ false }
{
    keys.is_sorted_by(|x, y| x.compare(y).is_lt())
}

// Whether a key stands among those before it. It is sought there only if one of them is in its bucket.
fn repeats<K: Key>(keys: &[K]) -> bool
    ensures { (same : K → K → Bool) → Test same → result ≡ twice same keys.now }
{
    let mut met = [false; 256];
    for (i, key) in keys.iter().enumerate() {
        let bucket = usize::from(key.bucket());
        if met[bucket] && find(&keys[..i], key).is_some() {
            return true;
        }
        met[bucket] = true;
    }
    false
}
