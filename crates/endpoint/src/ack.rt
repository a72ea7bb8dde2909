//! Acks.
ghost use Rattle.std.specs.Prelude.{◌≡◌, ◌≤◌, length};
ghost use Rattle.marks.specs.Marking.{unmarked};
ghost use Rattle.wire.specs.Requests.{Ack};
ghost use Rattle.protocol.specs.declared.types.State.TheVariants.{Armed};
ghost use Rattle.protocol.specs.Endpoint.{handle, acked, toward, addressed};
ghost use Rattle.endpoint.specs.View.{as_endpoint, Turned};

use crate::types::Endpoint;
use board::Board;
use carrier::Carrier;
use event::enabled::any;
use event::refusal::Refusal;
use marks::types::{Marked, Marks};
use protocol::types::State;
use wire::message::write_answer;

impl Endpoint {
    // An ack: the answer lists what changed since the present message.
    pub(crate) fn ack<B: Board, C: Carrier>(
        &mut self,
        board: &B,
        carrier: &mut C,
        sender: u8,
        slot: bool,
        buffer: &mut [u8],
    ) -> Result<usize, Refusal>
        requires { 4115 ≤ length buffer.old }
        ensures { Turned (handle sender (Ack slot) (B.Board.told board.now) (C.Carrier.carried carrier.old) (as_endpoint self.old)) (as_endpoint self.new) (C.Carrier.carried carrier.new) buffer.old buffer.new result }
    {
        match self.state {
            State::Off | State::Armed { .. } => {
                self.address(sender);
                let marks = &Marks::none();
                write_answer(buffer, slot, &Marked { board, marks })
            }
            State::Sending { .. } | State::Failed => {
                let marks = &self.since;
                let marked = Marked { board, marks };
                let answer = write_answer(buffer, slot, &marked);
                if !marked.overflows() {
                    self.rearm(sender);
                    carrier.withdraw();
                }
                answer
            }
        }
    }

    // An ack is accepted, and the marks go.
    fn rearm(&mut self, sender: u8)
        ensures { as_endpoint self.new ≡ acked sender (Armed 0) unmarked unmarked (as_endpoint self.old) }
    {
        self.state = State::Armed { age: 0 };
        self.unmark();
        self.address(sender);
    }

    // The sender is where messages are put to from now on, if an event is enabled.
    fn address(&mut self, sender: u8)
        ensures { as_endpoint self.new ≡ toward (addressed self.old.enabled sender (as_endpoint self.old)) (as_endpoint self.old) }
    {
        if any(self.enabled) {
            self.destination = sender;
        }
    }
}
