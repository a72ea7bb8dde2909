//! The carriers that a script may name, as one type.
ghost use Rattle.session.specs.Named.{carried_by};
ghost use Rattle.smbus.specs.Lying.{line_fits};
ghost use Rattle.std.proofs.Common.{rules};

use carrier::Carrier;
use carrier::mailbox::Mailbox;
use event::refusal::Refusal;
use smbus::SmbusCarrier;

/// A mailbox or an SMBus carrier.
#[derive(Drop)]
pub enum NamedCarrier {
    Mailbox(Mailbox),
    Smbus(SmbusCarrier),
}

/// It carries what its carrier carries.
impl Carrier for NamedCarrier {
    ghost carried = { carried_by };

    ghost fits = { Prim.search (rules, line_fits) };

    fn is_up(&self) -> bool {
        match self {
            NamedCarrier::Mailbox(carrier) => carrier.is_up(),
            NamedCarrier::Smbus(carrier) => carrier.is_up(),
        }
    }

    fn put(&mut self, destination: u8, message: &[u8]) -> bool {
        match self {
            NamedCarrier::Mailbox(carrier) => carrier.put(destination, message),
            NamedCarrier::Smbus(carrier) => carrier.put(destination, message),
        }
    }

    fn withdraw(&mut self) {
        match self {
            NamedCarrier::Mailbox(carrier) => carrier.withdraw(),
            NamedCarrier::Smbus(carrier) => carrier.withdraw(),
        }
    }

    fn link_up(&mut self) {
        match self {
            NamedCarrier::Mailbox(carrier) => carrier.link_up(),
            NamedCarrier::Smbus(carrier) => carrier.link_up(),
        }
    }

    fn link_down(&mut self) {
        match self {
            NamedCarrier::Mailbox(carrier) => carrier.link_down(),
            NamedCarrier::Smbus(carrier) => carrier.link_down(),
        }
    }

    fn fetch(&self, buffer: &mut [u8]) -> Result<usize, Refusal> {
        match self {
            NamedCarrier::Mailbox(carrier) => carrier.fetch(buffer),
            NamedCarrier::Smbus(carrier) => carrier.fetch(buffer),
        }
    }
}
