//! The buffers that calls work in.
ghost use Rattle.std.specs.Prelude.{◌≡◌};
ghost use Rattle.script.specs.Rooms.{asked_by, room_for};

use crate::command::Action;
use syntax::fault::Fault;

// The length of the buffer that a call asks for; none if it works in no buffer.
fn asked(action: &Action) -> Option<usize>
    ensures { result ≡ asked_by action.now }
{
    match action {
        Action::Tick { .. } => Some(4111),
        Action::Sync { .. } | Action::Ack => Some(217),
        Action::Hand { .. } => Some(4115),
        Action::PickUp | Action::Fetch => Some(4224),
        Action::Show { .. } => Some(64),
        Action::Change { .. } | Action::Take { .. } => None,
        Action::Up | Action::Down | Action::Lose | Action::Reset => None,
        Action::GiveUp | Action::Packets => None,
    }
}

/// The length of the buffer that is lent to a call: what the script says, or else just what the call asks for.
pub(crate) fn room(action: &Action, said: Option<usize>) -> Result<usize, Fault>
    ensures { result ≡ room_for (asked_by action.now) said }
{
    match (asked(action), said) {
        (Some(length), said) => Ok(said.unwrap_or(length)),
        (None, Some(_)) => Err(Fault::NoRoom),
        (None, None) => Ok(0),
    }
}
