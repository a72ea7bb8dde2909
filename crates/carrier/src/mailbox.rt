//! The mailbox carrier: it keeps the message whole.
ghost use Rattle.std.specs.Prelude.{◌≡◌, ◌≤◌, length};
ghost use Rattle.carrier.specs.Carriers.{new_line};
ghost use Rattle.std.proofs.Common.{rules};

use crate::{Carrier, fits};
use event::refusal::Refusal;

/// A carrier that keeps the message whole. With a length of zero nothing lies there.
// An array and a length, since the kit's vector writes a blank over each byte when it is emptied: a withdrawal, and each put,
// would cost as much as what lay there. An `Option` of the message is moved whole at each put, 4 KB for one of 40 bytes: put
// and fetch take 13 times as long.
#[derive(Drop)]
pub struct Mailbox {
    up: bool,
    destination: u8,
    len: usize,
    bytes: [u8; 4224],
    ghost short: { len ≤ 4224 },
    ghost whole: { length bytes ≡ 4224 },
}

impl Mailbox {
    ghost use Rattle.carrier.specs.Mailboxes.{line_of};

    /// A new mailbox: the link is up, and nothing lies there.
    pub fn new() -> Mailbox
        ensures { line_of result ≡ new_line }
    {
        Mailbox {
            up: true,
            destination: 0,
            len: 0,
            bytes: [0; 4224],
        }
    }
}

impl Carrier for Mailbox {
    ghost use Rattle.carrier.specs.Mailboxes.{line_of};

    ghost carried = { line_of };

    ghost fits = { Prim.search rules };

    fn is_up(&self) -> bool {
        self.up
    }

    fn put(&mut self, destination: u8, message: &[u8]) -> bool {
        if !self.up || !fits(message) {
            return false;
        }
        let len = message.len();
        self.bytes[0..len].copy_from_slice(message);
        self.destination = destination;
        self.len = len;
        true
    }

    fn withdraw(&mut self) {
        self.len = 0;
    }

    fn link_up(&mut self) {
        self.up = true;
    }

    fn link_down(&mut self) {
        self.up = false;
        self.lose();
    }

    fn fetch(&self, buffer: &mut [u8]) -> Result<usize, Refusal> {
        if buffer.len() < 4224 {
            return Err(Refusal::MessageBufferShort);
        }
        let len = self.len;
        if len == 0 {
            return Err(Refusal::NoMessage);
        }
        buffer[0..len].copy_from_slice(&self.bytes[0..len]);
        Ok(len)
    }
}
