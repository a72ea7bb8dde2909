//! Changes of the board's sources.
ghost use Rattle.std.specs.Prelude.{◌≡◌, ◌<◌};
ghost use Rattle.event.specs.View.{held};
ghost use Rattle.protocol.specs.Endpoint.{mark as marking};
ghost use Rattle.endpoint.specs.View.{as_endpoint, Changed};

use crate::types::Endpoint;
use board::Board;
use board::change::try_set;
use event::enabled::has;
use event::reading::Reading;
use event::refusal::Refusal;
use protocol::types::State;

impl Endpoint {
    /// The source at a place has this reading now, which may be the one that it had. The board is set, and the source is
    /// marked if its event is enabled.
    pub fn change<B: Board>(
        &mut self,
        board: &mut B,
        place: usize,
        reading: &[u8],
    ) -> Result<usize, Refusal>
        ensures { Changed (B.Board.told board.old) place reading.now (as_endpoint self.old) (as_endpoint self.new) (B.Board.told board.new) result }
    {
        let id = board.id(place).ok_or(Refusal::NoSuchPlace)?;
        let kept = Reading::new(reading).ok_or(Refusal::UnlawfulReading)?;
        try_set(board, place, reading)?;
        if has(self.enabled, id.identifier) {
            self.mark(place, kept);
        }
        Ok(0)
    }

    // Marks a place, by the state: for the next message, or since the present one.
    fn mark(&mut self, place: usize, reading: Reading)
        requires { place < 64 }
        ensures { as_endpoint self.new ≡ marking self.old.state place (held reading) (as_endpoint self.old) }
    {
        match self.state {
            State::Off => {}
            State::Armed { .. } => {
                let _ = self.prior.mark(place, reading);
            }
            State::Sending { .. } | State::Failed => {
                let _ = self.since.mark(place, reading);
            }
        }
    }
}
