//! The reader of lists.
ghost use Rattle.std.specs.Prelude.{◌≡◌, ℕ, suc, ◌≤◌, false, MatchOption};
ghost use Rattle.keys.specs.Keys.{twice};
ghost use Rattle.event.specs.Sources.{same_id, ids};
ghost use Rattle.list.specs.Lists.{read_list};
ghost use Rattle.list.specs.Laws.{ListsReadBack, OnlyEncoding};
ghost use Rattle.list.specs.View.{left, listing_if};
ghost use Rattle.list.specs.Reader.{in_form, is_body, lawful_body, read_told, told_if};

use crate::next::first;
use crate::types::{Front, ListRead, OccurrenceList, Occurrences, Overflow};
use arrayvec::ArrayVec;
use event::id::UniqueId;
use keys::has_twice;

// The length info of an overflow.
const OVERFLOW: u32 = 0x80_0000;

impl Front<'_> {
    // Whether it is a lawful occurrence.
    fn is_in_form(self) -> bool
        ensures { result ≡ in_form self.entry }
    {
        let other_length = if self.id.identifier >= 0xC0 {
            self.specific
        } else {
            self.vendor
        };
        self.mark == 9 && other_length == 0 && self.id.is_lawful() && self.id.allows(self.reading)
    }
}

// The bytes behind the lawful occurrence at the front, if one stands there.
fn behind_lawful(bytes: &[u8]) -> Option<&[u8]>
    ensures { MatchOption result ((n : ℕ) → is_body (suc n) bytes.now ≡ false) (λ rest. (n : ℕ) → is_body (suc n) bytes.now ≡ is_body n rest.now) }
{
    let front = first(bytes)?;
    front.is_in_form().then_some(front.rest)
}

// Whether the bytes are so many lawful occurrences, and not a byte more.
fn is_body(number: u8, bytes: &[u8]) -> bool
    ensures { result ≡ is_body number bytes.now }
{
    (0..number)
        .try_fold(bytes, |rest, _| behind_lawful(rest))
        .is_some_and(|rest| rest.is_empty())
}

// Whether two of the occurrences have one unique ID.
fn has_id_twice(list: Occurrences) -> bool
    requires { list.number ≤ 64 }
    ensures { result ≡ twice same_id (ids (left list.entry)) }
{
    // A loop: `extend` may find the vector full, and would have to be asked whether it did.
    let mut ids = ArrayVec::<UniqueId, 64>::new();
    for occurrence in list {
        ids.push(occurrence.id);
    }
    has_twice(ids.as_slice())
}

// Whether it is the body of a lawful list.
fn lawful_body(number: u8, body: &[u8]) -> bool
    ensures { result ≡ lawful_body number body.now }
{
    number <= 64
        && body.len() <= 4096
        && is_body(number, body)
        && !has_id_twice(Occurrences { number, rest: body })
}

// What the number, the length info and the body of a list tell, if it is lawful. (It says `info as usize`, since `usize` has
// no `From<u32>`.)
fn read_told(number: u8, info: u32, body: &[u8]) -> Option<OccurrenceList<'_>>
    ensures { told_if result ≡ read_told number info body.now }
{
    if number == 0 && info == OVERFLOW && body.is_empty() {
        Some(Err(Overflow))
    } else if info as usize == 7 + body.len() && lawful_body(number, body) {
        Some(Ok(Occurrences { number, rest: body }))
    } else {
        None
    }
}

/// The list that the bytes are, if they are a lawful list and not a byte more.
pub fn read_list(bytes: &[u8]) -> Option<ListRead<'_>>
    ensures listing { listing_if result ≡ read_list bytes.now }
    ensures only { OnlyEncoding }
    ensures back { ListsReadBack }
{
    let [
        number,
        version,
        length0,
        length1,
        length2,
        header_length,
        transmission,
        body @ ..,
    ] = bytes
    else {
        return None;
    };
    if *version != 0 || *header_length != 7 {
        return None;
    }
    let info = u32::from_le_bytes([*length0, *length1, *length2, 0]);
    let list = read_told(*number, info, body)?;
    Some(ListRead {
        transmission: *transmission,
        list,
    })
}
