//! The writer of the list of the marked sources of a board.
ghost use Rattle.std.specs.Prelude.{◌≡◌, ◌≤◌, length};
ghost use Rattle.event.specs.Bytes.{placed};
ghost use Rattle.list.specs.Lists.{body, over};
ghost use Rattle.marks.specs.Lawful.{ListsLawful, ReadsBack};
ghost use Rattle.marks.specs.View.{marks_of, occurrences_in};
ghost use Rattle.marks.specs.Written.{marked_list, Written};

use crate::bytes::{OCCURRENCE_HEAD, header_bytes, put_occurrence};
use crate::types::Marked;
use board::Board;

// The bytes of a list's header.
const HEADER: usize = 7;

// The most bytes of a list's body.
const LONGEST_BODY: usize = 4096;

// The length info of a list on overflow: the overflow bit alone.
const OVERFLOW: u32 = 0x80_0000;

impl<B: Board> Marked<'_, B> {
    // How many bytes the marked sources take.
    fn body_length(&self) -> usize
        ensures { result ≡ length (body (occurrences_in B.Board.told self.now)) }
    {
        (0..self.board.count())
            .filter_map(|place| Some(OCCURRENCE_HEAD + self.marks.get(place)?.as_bytes().len()))
            .sum()
    }

    // Writes the marked sources to the front of `out`.
    fn put_body(&self, out: &mut [u8])
        requires { length (body (occurrences_in B.Board.told self.now)) ≤ length out.old }
        ensures { out.new ≡ placed out.old 0 (body (occurrences_in B.Board.told self.now)) }
    {
        // A loop: of what a closure changes, a proof knows nothing.
        let mut at = 0;
        for place in 0..self.board.count() {
            if let Some((id, reading)) = self.board.id(place).zip(self.marks.get(place)) {
                at += put_occurrence(&mut out[at..], id, &reading);
            }
        }
    }

    /// Whether the marked sources are too many for a list: they take more than 4,096 bytes.
    pub fn overflows(&self) -> bool
        ensures { result ≡ over (occurrences_in B.Board.told self.now) }
    {
        self.body_length() > LONGEST_BODY
    }

    /// Writes the list of the marked sources to the front of `out`, the part of a message's buffer from the list's place
    /// on, and says how long the list is. In less than 4,103 bytes nothing is written. A list of lawful readings reads
    /// back.
    pub fn put_list(&self, out: &mut [u8], transmission: u8) -> Option<usize>
        ensures written { Written 4103 (marked_list transmission (B.Board.told self.now.board.now) (marks_of self.now.marks.now)) out.old out.new result }
        ensures lawful { ListsLawful }
        ensures back { ReadsBack transmission (B.Board.told self.now.board.now) (marks_of self.now.marks.now) }
    {
        if out.len() < HEADER + LONGEST_BODY {
            return None;
        }
        let n = self.body_length();
        if n > LONGEST_BODY {
            out[0..HEADER].copy_from_slice(&header_bytes(0, OVERFLOW, transmission));
            return Some(HEADER);
        }
        let total = HEADER + n;
        let header = header_bytes(self.number(), total as u32, transmission);
        out[0..HEADER].copy_from_slice(&header);
        self.put_body(&mut out[HEADER..]);
        Some(total)
    }
}
