//! Writers of event messages and answers.
ghost use Rattle.std.specs.Prelude.{◌≡◌, ◌+◌, ◌++◌, Bool, true, length};
ghost use Rattle.event.specs.Outcomes.{Gives};
ghost use Rattle.list.specs.Lists.{told, list_bytes};
ghost use Rattle.marks.specs.View.{occurrences_in};
ghost use Rattle.marks.specs.Written.{Written};
ghost use Rattle.wire.specs.Checks.{checked};
ghost use Rattle.wire.specs.Laws.{EventsReadBack, AnswersReadBack};
ghost use Rattle.wire.specs.Messages.{answer_head};
ghost use Rattle.wire.specs.Writing.{writes_event, writes_answer};

use crate::check::{put, put_check};
use board::Board;
use event::refusal::Refusal;
use marks::types::Marked;

// What stands before the list of an event message.
pub(crate) const EVENT_HEAD: [u8; 4] = [0x84, 0x28, 0, 0];

// The most bytes of a list and of the check word behind it.
const LIST_AND_CHECK: usize = 4107;

// What stands before the list of an answer.
pub(crate) fn answer_head(slot: bool) -> [u8; 8]
    ensures { result ≡ answer_head slot }
{
    [0x84, 0x88 + u8::from(slot), 0, 0, 0, 0, 0, 0]
}

/// Writes the event message of the marked sources of a board to the front of the buffer, and counts its bytes. The
/// transmission info has the generation in bits 7:3 and the retry count in bits 2:0.
pub fn write_event<B: Board>(
    buffer: &mut [u8],
    transmission: u8,
    marked: &Marked<'_, B>,
) -> Result<usize, Refusal>
    ensures wrote { Gives (writes_event (length buffer.old) transmission (occurrences_in B.Board.told marked.now)) buffer.old buffer.new result }
    ensures back { EventsReadBack }
{
    write_framed(buffer, &EVENT_HEAD, transmission, marked).ok_or(Refusal::TickBufferShort)
}

/// Writes the answer that lists the marked sources of a board to the front of the buffer, and counts its bytes.
pub fn write_answer<B: Board>(
    buffer: &mut [u8],
    slot: bool,
    marked: &Marked<'_, B>,
) -> Result<usize, Refusal>
    ensures wrote { Gives (writes_answer (length buffer.old) slot (occurrences_in B.Board.told marked.now)) buffer.old buffer.new result }
    ensures back { AnswersReadBack }
{
    write_framed(buffer, &answer_head(slot), 0, marked).ok_or(Refusal::AnswerBufferShort)
}

// Writes a head, the list of the marked sources of a board and the check word to the front of the buffer, and counts
// their bytes, unless the buffer is too short for the longest list.
fn write_framed<B: Board>(
    buffer: &mut [u8],
    head: &[u8],
    transmission: u8,
    marked: &Marked<'_, B>,
) -> Option<usize>
    ensures { Written (length head.now + 4107) (checked (head.now ++ list_bytes transmission (told (occurrences_in B.Board.told marked.now)))) buffer.old buffer.new result }
{
    if buffer.len() < head.len() + LIST_AND_CHECK {
        return None;
    }
    let start = put(buffer, 0, head);
    let n = marked.put_list(&mut buffer[start..], transmission)?;
    Some(put_check(buffer, start + n))
}
