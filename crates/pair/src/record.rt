//! The record of a call.
ghost use Rattle.std.specs.Prelude.{◌≡◌, length};

use event::refusal::Refusal;

/// What a call of a run leaves: what it handed back, and the buffer that it worked in.
#[derive(Drop)]
pub struct Record {
    pub(crate) reply: Option<Result<usize, Refusal>>,
    pub(crate) buffer: [u8; 4224],
    ghost long: { length buffer ≡ 4224 },
}
