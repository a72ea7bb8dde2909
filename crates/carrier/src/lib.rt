//! Carriers: what takes a message from one end to the other, by what it means.
#![tactic(auto)]

ghost use Rattle.std.specs.Prelude.{◌≡◌, true, length};
ghost use Rattle.event.specs.Outcomes.{Gives};
ghost use Rattle.carrier.specs.Carriers.{Line, takes, after_put, withdrawn, linked_up, linked_down, fetched, lying_fits, message_fits};

use event::refusal::Refusal;

pub mod mailbox;

/// A link, up or down, and at most one message that lies on it, with its destination.
pub trait Carrier {
    /// The link, and what lies on it.
    ghost carried: { Self → Line };

    /// Whether the link is up.
    fn is_up(&self) -> bool
        ensures { result ≡ (carried self.now).link };

    /// Lays a message on the link in the place of what lies there, and says whether it was taken: the link is up, and
    /// the message has 1 to 4,224 bytes. Else nothing changes.
    // Two parameters, since the two come from different places: one from the state of an end, one from a buffer.
    fn put(&mut self, destination: u8, message: &[u8]) -> bool
        ensures taken { result ≡ takes (carried self.old) message.now }
        ensures after { carried self.new ≡ after_put (carried self.old) destination message.now };

    /// Takes away what lies there.
    fn withdraw(&mut self)
        ensures { carried self.new ≡ withdrawn (carried self.old) };

    /// What lies there is lost on its way.
    fn lose(&mut self)
        ensures { carried self.new ≡ withdrawn (carried self.old) }
    {
        self.withdraw();
    }

    /// The link comes up.
    fn link_up(&mut self)
        ensures { carried self.new ≡ linked_up (carried self.old) };

    /// The link goes down, and what lies there is lost.
    fn link_down(&mut self)
        ensures { carried self.new ≡ linked_down (carried self.old) };

    /// Copies the message to the start of a buffer of at least 4,224 bytes, and says how long it is. It stays where it
    /// lies, and the rest of the buffer stays as it was.
    fn fetch(&self, buffer: &mut [u8]) -> Result<usize, Refusal>
        ensures { Gives (fetched (length buffer.old) (carried self.now).message) buffer.old buffer.new result };

    /// What lies there has 1 to 4,224 bytes.
    ghost fits: { (c : Self) → lying_fits (carried c).message ≡ true };
}

/// Whether a message has 1 to 4,224 bytes.
pub fn fits(message: &[u8]) -> bool
    ensures { result ≡ message_fits message.now }
{
    (1..=4224).contains(&message.len())
}

/// Puts a message and fetches what lies there then, which is that message if the put was taken.
pub fn deliver<C: Carrier>(
    carrier: &mut C,
    destination: u8,
    message: &[u8],
    buffer: &mut [u8],
) -> Result<usize, Refusal>
    ensures after { C.Carrier.carried carrier.new ≡ after_put (C.Carrier.carried carrier.old) destination message.now }
    ensures gives { Gives (fetched (length buffer.old) (after_put (C.Carrier.carried carrier.old) destination message.now).message) buffer.old buffer.new result }
{
    let _taken = carrier.put(destination, message);
    carrier.fetch(buffer)
}
