//! Readers of messages and lists.
ghost use Rattle.std.specs.Prelude.{◌≡◌, length};
ghost use Rattle.event.specs.Outcomes.{over_front};
ghost use Rattle.list.specs.Lists.{read_list as read_list_of};
ghost use Rattle.wire.specs.Messages.{read_event as read_event_of, read_answer as read_answer_of};
ghost use Rattle.wire.specs.Requests.{read_request as read_request_of};
ghost use Rattle.wire.specs.View.{request_in, event_in, answer_in};
ghost use Rattle.crossing.specs.Outcomes.{refusal_number};
ghost use Rattle.crossing.specs.Reading.{Shows};
ghost use Rattle.capi.specs.Reading.{ack_list, ShowsList};

use crossing::output::{show, show_list};
use crossing::types::{Head, Row, Switch};
use list::read::read_list;
use wire::read::{read_answer, read_event, read_request};
use wire::types::Message;

/// Reads a request: what it says goes into the head, and its items into the switches, as far as there is room for them.
#[unsafe(no_mangle)]
pub extern "C" fn fenduxi_read_request(
    bytes: &[u8],
    head: &mut Head,
    switches: &mut [Switch],
    rows: &mut [Row],
) -> u8
    ensures { Shows (request_in (read_request_of bytes.now)) head.old head.new switches.old switches.new rows.old rows.new result }
{
    show(read_request(bytes), head, switches, rows)
}

/// Reads an event message: what it says goes into the head, and its occurrences into the rows, as far as there is room for them.
#[unsafe(no_mangle)]
pub extern "C" fn fenduxi_read_event(
    bytes: &[u8],
    head: &mut Head,
    switches: &mut [Switch],
    rows: &mut [Row],
) -> u8
    ensures { Shows (event_in (read_event_of bytes.now)) head.old head.new switches.old switches.new rows.old rows.new result }
{
    show(read_event(bytes), head, switches, rows)
}

/// The number of the refusal of an event message; what it says is not shown.
#[unsafe(no_mangle)]
pub extern "C" fn fenduxi_event_refusal(bytes: &[u8]) -> u8
    ensures { result ≡ refusal_number (event_in (read_event_of bytes.now)) }
{
    match read_event(bytes) {
        Ok(_) => 0,
        Err(refusal) => refusal.number(),
    }
}

/// Copies the enable list of an ack, as it stands in the request, to the front of the buffer. If the request is a sync, or the list is
/// longer than the buffer, nothing is copied, and the count is 0.
#[unsafe(no_mangle)]
pub extern "C" fn fenduxi_ack_list(bytes: &[u8], buffer: &mut [u8], count: &mut usize) -> u8
    ensures number { result ≡ refusal_number (read_request_of bytes.now) }
    ensures count { count.new ≡ length (ack_list bytes.now (length buffer.old)) }
    ensures buffer { buffer.new ≡ over_front (ack_list bytes.now (length buffer.old)) buffer.old }
{
    *count = 0;
    match read_request(bytes) {
        Ok(Message::Ack { slot: _, list }) => {
            if list.len() <= buffer.len() {
                *count = list.len();
                buffer[..list.len()].copy_from_slice(list);
            }
            0
        }
        Ok(Message::Sync { .. } | Message::Event { .. } | Message::Answer { .. }) => 0,
        Err(refusal) => refusal.number(),
    }
}

/// Reads an answer: what it says goes into the head, and its occurrences into the rows, as far as there is room for them.
#[unsafe(no_mangle)]
pub extern "C" fn fenduxi_read_answer(
    bytes: &[u8],
    head: &mut Head,
    switches: &mut [Switch],
    rows: &mut [Row],
) -> u8
    ensures { Shows (answer_in (read_answer_of bytes.now)) head.old head.new switches.old switches.new rows.old rows.new result }
{
    show(read_answer(bytes), head, switches, rows)
}

/// Reads a list alone, and says whether it is one. Its transmission info goes into the head as a generation and retries.
#[unsafe(no_mangle)]
pub extern "C" fn fenduxi_read_list(bytes: &[u8], head: &mut Head, rows: &mut [Row]) -> bool
    ensures { ShowsList (read_list_of bytes.now) head.old head.new rows.old rows.new result }
{
    let Some(read) = read_list(bytes) else {
        return false;
    };
    let (overflow, number) = show_list(read.list, rows);
    *head = Head {
        kind: 5,
        generation: read.transmission / 8,
        retries: read.transmission % 8,
        overflow,
        number,
        ..Head::default()
    };
    true
}
