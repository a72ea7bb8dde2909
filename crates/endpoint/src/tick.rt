//! Ticks: the endpoint sends what is marked, and sends it again until it is acknowledged.
ghost use Rattle.std.specs.Prelude.{◌≡◌, ◌<◌, ◌≤◌, [], length};
ghost use Rattle.event.specs.Sources.{ids};
ghost use Rattle.protocol.specs.declared.types.State.TheVariants.{Sending};
ghost use Rattle.protocol.specs.Endpoint.{start as starting, tick as ticking, fail as failing};
ghost use Rattle.endpoint.specs.View.{as_endpoint, Left, Turned};
ghost use Rattle.endpoint.specs.Sending.{attempted};

use crate::types::{Endpoint, Event, Move};
use board::Board;
use carrier::Carrier;
use event::refusal::Refusal;
use marks::types::Marked;
use protocol::types::State;
use wire::message::write_event;

impl Endpoint {
    /// 100 ms have passed. What is put to the carrier is written into the buffer.
    pub fn tick<B: Board, C: Carrier>(
        &mut self,
        board: &B,
        carrier: &mut C,
        buffer: &mut [u8],
    ) -> Result<usize, Refusal>
        ensures { Turned (ticking (ids (B.Board.told board.now)) (length buffer.old) (C.Carrier.carried carrier.old) (as_endpoint self.old)) (as_endpoint self.new) (C.Carrier.carried carrier.new) buffer.old buffer.new result }
    {
        if buffer.len() < 4111 {
            return Err(Refusal::TickBufferShort);
        }
        let marks = &self.prior;
        let event = Event::Tick {
            full: self.delays.first.ticks(),
            retry: self.delays.retry.ticks(),
            marked: !Marked { board, marks }.is_empty(),
        };
        match self.step(event) {
            Move::Rest => Ok(0),
            Move::Start => self.start(board, carrier, buffer),
            Move::Again { retries } => self.send(retries, board, carrier, buffer),
            Move::Fail => {
                self.fail(carrier);
                Ok(0)
            }
        }
    }

    // The first attempt of the next generation.
    fn start<B: Board, C: Carrier>(
        &mut self,
        board: &B,
        carrier: &mut C,
        buffer: &mut [u8],
    ) -> Result<usize, Refusal>
        requires { (4111 ≤ length buffer.old) × (self.old.state ≡ Sending 1 0) }
        ensures { Turned (starting (ids (B.Board.told board.now)) (C.Carrier.carried carrier.old) (as_endpoint self.old)) (as_endpoint self.new) (C.Carrier.carried carrier.new) buffer.old buffer.new result }
    {
        self.generation = (self.generation + 1) % 32;
        self.send(0, board, carrier, buffer)
    }

    // One attempt, with its retry count. Where the carrier does not take it and no other would follow, the attempts have
    // failed.
    fn send<B: Board, C: Carrier>(
        &mut self,
        retries: u8,
        board: &B,
        carrier: &mut C,
        buffer: &mut [u8],
    ) -> Result<usize, Refusal>
        requires { (4111 ≤ length buffer.old) × (retries < 8) }
        ensures { Turned (attempted (ids (B.Board.told board.now)) retries (C.Carrier.carried carrier.old) (as_endpoint self.old)) (as_endpoint self.new) (C.Carrier.carried carrier.new) buffer.old buffer.new result }
    {
        let marks = &self.prior;
        let transmission = self.generation * 8 + retries;
        let count = write_event(buffer, transmission, &Marked { board, marks })?;
        let taken = carrier.put(self.destination, &buffer[..count]);
        if !taken && self.delays.retry.ticks() == 0 {
            self.fail(carrier);
        }
        Ok(count)
    }

    // The attempts have failed: the message is withdrawn, and the marks are kept.
    fn fail<C: Carrier>(&mut self, carrier: &mut C)
        ensures { Left (failing [] (C.Carrier.carried carrier.old) (as_endpoint self.old)) (as_endpoint self.new) (C.Carrier.carried carrier.new) }
    {
        self.state = State::Failed;
        self.failure = true;
        carrier.withdraw();
    }
}
