//! A change of one reading of any board.
ghost use Rattle.std.specs.Prelude.{◌≡◌};
ghost use Rattle.board.specs.Boards.{after_set};
ghost use Rattle.board.specs.Changes.{change_refusal, handed_back};

use crate::Board;
use event::refusal::Refusal;

/// Gives the source at a place another reading, or says why not: there is no such place, or the source cannot have
/// this reading.
pub fn try_set<B: Board>(board: &mut B, place: usize, reading: &[u8]) -> Result<(), Refusal>
    ensures result { result ≡ handed_back (change_refusal (B.Board.told board.old) place reading.now) }
    ensures after { B.Board.told board.new ≡ after_set (B.Board.told board.old) place reading.now }
{
    if place >= board.count() {
        return Err(Refusal::NoSuchPlace);
    }
    if !board.set(place, reading) {
        return Err(Refusal::UnlawfulReading);
    }
    Ok(())
}
