//! Runs of a writer and of an endpoint: what stands for the whole run is made once.
ghost use Rattle.std.specs.Prelude.{◌≡◌, length};
ghost use Rattle.endpoint.specs.View.{as_endpoint, Turned};
ghost use Rattle.marks.specs.View.{occurrences_in};
ghost use Rattle.measured.specs.Runs.{at_start, run, writes, step as stepping, new_steps};

use board::Board;
use carrier::Carrier;
use carrier::mailbox::Mailbox;
use endpoint::types::Endpoint;
use event::refusal::Refusal;
use marks::types::Marked;
use wire::message::write_event;

/// Writes an event message for each transmission info, and hands back what the last one gave.
pub fn write_all<B: Board>(
    buffer: &mut [u8],
    transmissions: &[u8],
    marked: &Marked<'_, B>,
) -> Result<usize, Refusal>
    ensures { run result buffer.new ≡ writes (occurrences_in B.Board.told marked.now) transmissions.now (at_start buffer.old) }
{
    let mut last = Ok(0);
    for transmission in transmissions {
        last = write_event(buffer, *transmission, marked);
    }
    last
}

/// Takes steps with a new endpoint on a mailbox: 0 is a tick, and any other number this request, of the sender of that number. Hands
/// back what the last one gave.
pub fn take_steps<B: Board>(
    board: &B,
    message: &[u8],
    steps: &[u8],
    buffer: &mut [u8],
) -> Result<usize, Refusal>
    ensures { run result buffer.new ≡ new_steps (B.Board.told board.now) message.now steps.now buffer.old }
{
    let mut endpoint = Endpoint::new();
    let mut carrier = Mailbox::new();
    let mut last = Ok(0);
    for number in steps {
        last = step(&mut endpoint, board, &mut carrier, *number, message, buffer);
    }
    last
}

// Takes one step.
fn step<B: Board, C: Carrier>(
    endpoint: &mut Endpoint,
    board: &B,
    carrier: &mut C,
    number: u8,
    message: &[u8],
    buffer: &mut [u8],
) -> Result<usize, Refusal>
    ensures { Turned (stepping (B.Board.told board.now) message.now number (length buffer.old) (C.Carrier.carried carrier.old) (as_endpoint endpoint.old)) (as_endpoint endpoint.new) (C.Carrier.carried carrier.new) buffer.old buffer.new result }
{
    if number == 0 {
        endpoint.tick(board, carrier, buffer)
    } else {
        let mut mask = 0;
        endpoint.request(board, carrier, number, message, buffer, &mut mask)
    }
}
