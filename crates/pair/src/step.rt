//! One call of a pair.
ghost use Rattle.std.specs.Prelude.{◌≡◌, [], length, Some as some};
ghost use Rattle.protocol.specs.Pair.{new_pair, requests};
ghost use Rattle.protocol.specs.History.{new_history};
ghost use Rattle.pair.specs.Fair.{CameFairly, KeepsPromises};
ghost use Rattle.pair.specs.Runs.{prepend};
ghost use Rattle.pair.specs.View.{pair_in, call_to, Steps};

use crate::call::Call;
use crate::manager::Manager;
use crate::pair::Pair;
use board::Board;
use carrier::Carrier;
use endpoint::types::Endpoint;
use event::refusal::Refusal;

impl<B: Board, C: Carrier> Pair<B, C> {
    /// A new pair on this board and this carrier: the endpoint is Off, the book is blind, and no receipt is under way.
    pub fn new(board: B, carrier: C) -> Pair<B, C>
        ensures new { pair_in B.told C.carried result ≡ new_pair (B.told board) (C.carried carrier) }
        ensures came { CameFairly (pair_in B.told C.carried result) new_history }
    {
        Pair {
            endpoint: Endpoint::new(),
            manager: Manager::new(),
            board,
            carrier,
        }
    }

    // A request is handed in to the endpoint. The report mask byte is the pair's own.
    fn request(&mut self, sender: u8, message: &[u8], buffer: &mut [u8]) -> Result<usize, Refusal>
        ensures { Steps (pair_in B.told C.carried self.old) (some (requests sender message.now (length buffer.old))) (pair_in B.told C.carried self.new) buffer.old buffer.new (some result) }
    {
        let mut mask = 0;
        self.endpoint.request(
            &self.board,
            &mut self.carrier,
            sender,
            message,
            buffer,
            &mut mask,
        )
    }

    // One call, by its kind.
    pub(crate) fn step(
        &mut self,
        call: Call<'_>,
        buffer: &mut [u8],
    ) -> Option<Result<usize, Refusal>>
        ensures { Steps (pair_in B.told C.carried self.old) (call_to (pair_in B.told C.carried self.old) (length buffer.old) call.entry) (pair_in B.told C.carried self.new) buffer.old buffer.new result }
    {
        let done = match call {
            Call::Change { place, reading } => self
                .endpoint
                .change(&mut self.board, place, reading),
            Call::Tick => self.endpoint.tick(&self.board, &mut self.carrier, buffer),
            Call::LinkUp => {
                self.carrier.link_up();
                Ok(0)
            }
            Call::LinkDown => {
                self.carrier.link_down();
                Ok(0)
            }
            Call::Lose => {
                self.carrier.lose();
                Ok(0)
            }
            Call::WriteSync { items, delays } => self.manager.write_sync(buffer, items, delays),
            Call::WriteAck => self.manager.write_ack(buffer),
            Call::Request { sender, message } => self.request(sender, message, buffer),
            Call::Answer { bytes } => return self.manager.answer(bytes),
            Call::GiveUp => return self.manager.give_up(),
            Call::PickUp => self.manager.pick_up(&self.carrier, buffer),
            Call::Fetch => self.carrier.fetch(buffer),
            Call::Show { id } => self.manager.book.show(id, buffer),
            Call::Reset => {
                self.endpoint.reset(&mut self.carrier);
                Ok(0)
            }
        };
        Some(done)
    }

    /// One call, which works in the buffer. Nothing is handed back, and nothing changes, where it would spend a receipt and
    /// none is under way.
    pub fn call(&mut self, call: Call<'_>, buffer: &mut [u8]) -> Option<Result<usize, Refusal>>
        ensures steps { Steps (pair_in B.told C.carried self.old) (call_to (pair_in B.told C.carried self.old) (length buffer.old) call.entry) (pair_in B.told C.carried self.new) buffer.old buffer.new result }
        ensures kept { KeepsPromises (pair_in B.told C.carried self.old) (prepend (call_to (pair_in B.told C.carried self.old) (length buffer.old) call.entry) []) (pair_in B.told C.carried self.new) }
    {
        self.step(call, buffer)
    }
}
