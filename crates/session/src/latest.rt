//! What later calls take up, and which call an action is.
ghost use Rattle.std.specs.Prelude.{◌≡◌, ℕ, Option, OnOk, OnErr, is_some, vec_items};
ghost use Rattle.wire.specs.declared.types.Kind.{Kind};
ghost use Rattle.pair.specs.Runs.{note_of};
ghost use Rattle.session.specs.Asked.{asked, is_call, request_after, answer_after, call_if};

use pair::call::Call;
use pair::record::Record;
use script::command::Action;
use std::alloc::{AllocError, Global};

/// The request last written and the endpoint's latest answer, each empty if there is none.
#[derive(Drop)]
pub struct Latest {
    pub(crate) request: Vec<u8>,
    pub(crate) answer: Vec<u8>,
}

impl Latest {
    /// The call of an action; none for one that is no call of a pair.
    pub fn call<'a>(&'a self, action: &'a Action) -> Option<Call<'a>>
        ensures call { (kind : Option Kind) (room : ℕ) → call_if kind room result ≡ asked self.now kind room action.now }
        ensures some { is_some result ≡ is_call action.now }
    {
        Some(match action {
            Action::Change { place, reading } => Call::Change {
                place: *place,
                reading,
            },
            Action::Tick { .. } => Call::Tick,
            Action::Up => Call::LinkUp,
            Action::Down => Call::LinkDown,
            Action::Lose => Call::Lose,
            Action::Reset => Call::Reset,
            Action::Sync { delays, items } => Call::WriteSync {
                items,
                delays: *delays,
            },
            Action::Ack => Call::WriteAck,
            Action::Hand { sender, message } => Call::Request {
                sender: *sender,
                message: message.as_deref().unwrap_or(&self.request),
            },
            Action::Take { message } => Call::Answer {
                bytes: message.as_deref().unwrap_or(&self.answer),
            },
            Action::GiveUp => Call::GiveUp,
            Action::PickUp => Call::PickUp,
            Action::Fetch => Call::Fetch,
            Action::Show { id } => Call::Show { id: *id },
            Action::Packets => return None,
        })
    }

    /// Keeps the request that was written, or the endpoint's answer. Where no memory is left, nothing changes.
    pub fn keep(&mut self, heap: Global, action: &Action, record: &Record) -> Result<(), AllocError>
        ensures request { OnOk result (vec_items self.new.request ≡ request_after self.old action.now (note_of «record».now)) }
        ensures answer { OnOk result (vec_items self.new.answer ≡ answer_after self.old action.now (note_of «record».now)) }
        ensures unchanged { OnErr result (self.new ≡ self.old) }
    {
        let Some(Ok(count)) = record.reply() else {
            return Ok(());
        };
        let buffer = record.buffer();
        let written = buffer.get(..count).unwrap_or(buffer);
        match action {
            Action::Sync { .. } | Action::Ack => self.request = written.to_vec(heap)?,
            Action::Hand { .. } => self.answer = written.to_vec(heap)?,
            _ => {}
        }
        Ok(())
    }
}
