//! Syncs.
ghost use Rattle.std.specs.Prelude.{◌≡◌, ◌≤◌, length};
ghost use Rattle.wire.specs.Requests.{Sync};
ghost use Rattle.wire.specs.View.{left};
ghost use Rattle.protocol.specs.Endpoint.{handle, synced};
ghost use Rattle.endpoint.specs.View.{as_endpoint, Turned};

use crate::types::Endpoint;
use board::Board;
use carrier::Carrier;
use enabling::{snapshot, switch};
use event::delay::Delays;
use event::enabled::any;
use event::refusal::Refusal;
use marks::types::Marked;
use protocol::types::State;
use wire::message::write_answer;
use wire::types::Items;

impl Endpoint {
    // A sync: its items apply in order, and the answer lists every source then enabled with its present reading.
    pub(crate) fn sync<B: Board, C: Carrier>(
        &mut self,
        board: &B,
        carrier: &mut C,
        sender: u8,
        slot: bool,
        delays: Delays,
        items: Items<'_>,
        buffer: &mut [u8],
    ) -> Result<usize, Refusal>
        requires { 4115 ≤ length buffer.old }
        ensures { Turned (handle sender (Sync slot (left items.entry) delays.first.0 delays.retry.0) (B.Board.told board.now) (C.Carrier.carried carrier.old) (as_endpoint self.old)) (as_endpoint self.new) (C.Carrier.carried carrier.new) buffer.old buffer.new result }
    {
        let enabled = switch(board, self.enabled, items);
        let marks = &snapshot(board, enabled);
        let marked = Marked { board, marks };
        if !marked.overflows() {
            self.settle(enabled, delays, sender);
            carrier.withdraw();
        }
        write_answer(buffer, slot, &marked)
    }

    // A sync is accepted: its enables and delays are stored, and the marks and the failure bit go.
    fn settle(&mut self, enabled: [u64; 4], delays: Delays, sender: u8)
        ensures { as_endpoint self.new ≡ synced sender enabled delays.first.0 delays.retry.0 (as_endpoint self.old) }
    {
        self.enabled = enabled;
        self.delays = delays;
        self.failure = false;
        self.unmark();
        if any(enabled) {
            self.state = State::Armed { age: 0 };
            self.destination = sender;
        } else {
            self.state = State::Off;
        }
    }
}
