//! Requests, syncs and acks.
ghost use Rattle.std.specs.Prelude.{◌≡◌, length};
ghost use Rattle.protocol.specs.Endpoint.{request as requesting};
ghost use Rattle.endpoint.specs.View.{as_endpoint, Turned};

use crate::types::Endpoint;
use board::Board;
use carrier::Carrier;
use event::refusal::Refusal;
use wire::read::read_request;
use wire::types::Message;

// While it lives the report mask byte is 1, and then what it was.
struct MaskGuard<'a> {
    mask: &'a mut u8,
    old: u8,
}

impl Drop for MaskGuard<'_> {
    fn drop(self)
        ensures { self.exit.0.now ≡ self.entry.old }
    {
        *self.mask = self.old;
        let MaskGuard { mask: _, old: _ } = self;
    }
}

impl Endpoint {
    /// A request of `sender`, of any length and content. Its answer is written into the buffer. The report mask byte is 1
    /// while the request is worked, and on every way out it has its old value.
    pub fn request<B: Board, C: Carrier>(
        &mut self,
        board: &B,
        carrier: &mut C,
        sender: u8,
        message: &[u8],
        buffer: &mut [u8],
        mask: &mut u8,
    ) -> Result<usize, Refusal>
        ensures mask { mask.new ≡ mask.old }
        ensures turn { Turned (requesting (length buffer.old) sender message.now (B.Board.told board.now) (C.Carrier.carried carrier.old) (as_endpoint self.old)) (as_endpoint self.new) (C.Carrier.carried carrier.new) buffer.old buffer.new result }
    {
        let old = *mask;
        *mask = 1;
        let guard = MaskGuard { mask, old };
        self.work(board, carrier, sender, message, buffer, &*guard.mask)
    }

    // A request is worked. The report mask byte is lent to it, so that it is 1 until all is done.
    fn work<B: Board, C: Carrier>(
        &mut self,
        board: &B,
        carrier: &mut C,
        sender: u8,
        message: &[u8],
        buffer: &mut [u8],
        mask: &u8,
    ) -> Result<usize, Refusal>
        requires { mask.now ≡ 1 }
        ensures { Turned (requesting (length buffer.old) sender message.now (B.Board.told board.now) (C.Carrier.carried carrier.old) (as_endpoint self.old)) (as_endpoint self.new) (C.Carrier.carried carrier.new) buffer.old buffer.new result }
    {
        if buffer.len() < 4115 {
            return Err(Refusal::AnswerBufferShort);
        }
        match read_request(message)? {
            Message::Sync {
                slot,
                delays,
                items,
            } => self.sync(board, carrier, sender, slot, delays, items, buffer),
            Message::Ack { slot, .. } => self.ack(board, carrier, sender, slot, buffer),
            // The reader of requests hands back no other message.
            Message::Event { .. } | Message::Answer { .. } => Err(Refusal::RequestKind),
        }
    }
}
