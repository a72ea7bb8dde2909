//! The SMBus carrier: it keeps the packets of a message.
#![tactic(auto)]

mod bus;
mod calls;
mod packet;
mod packing;

pub use bus::SmbusCarrier;
pub use packet::Addresses;
