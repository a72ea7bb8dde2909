//! A pair that makes the actions of a script.
ghost use Rattle.std.specs.Prelude.{◌≡◌, [], vec_items};
ghost use Rattle.protocol.specs.Pair.{new_pair, pair_of};
ghost use Rattle.endpoint.specs.View.{as_endpoint};
ghost use Rattle.pair.specs.Receipts.{awaited};
ghost use Rattle.pair.specs.View.{step_if, give_up_if};
ghost use Rattle.session.specs.Asked.{pair_of_session, asked_in, note_if, note_left};
ghost use Rattle.session.specs.Named.{told_by, carried_by};

use crate::boards::NamedBoard;
use crate::carriers::NamedCarrier;
use crate::latest::Latest;
use book::parts::Book;
use endpoint::types::Endpoint;
use pair::call::Task;
use pair::pair::Pair;
use pair::record::Record;
use script::command::Action;
use std::alloc::Global;

/// A pair, and what its later calls take up. It cannot be let go: `end` ends its pair.
pub struct Session {
    pub pair: Pair<NamedBoard, NamedCarrier>,
    pub latest: Latest,
}

impl Session {
    /// A new pair on this board and this carrier, with nothing to take up.
    pub fn new(heap: Global, board: NamedBoard, carrier: NamedCarrier) -> Session
        ensures pair { pair_of_session result ≡ new_pair (told_by board) (carried_by carrier) }
        ensures request { vec_items result.latest.request ≡ [] }
        ensures answer { vec_items result.latest.answer ≡ [] }
    {
        Session {
            pair: Pair::new(board, carrier),
            latest: Latest {
                request: Vec::new(heap),
                answer: Vec::new(heap),
            },
        }
    }

    /// Makes a call, with a buffer of this length, and hands back its record; none for an action that is no call of a pair.
    pub fn make(&mut self, action: &Action, room: usize) -> Option<Record>
        ensures pair { pair_of_session self.new ≡ step_if (pair_of_session self.old) (asked_in self.old room action.now) }
        ensures latest { self.new.latest ≡ self.old.latest }
        ensures made { note_if result ≡ note_left (pair_of_session self.old) (asked_in self.old room action.now) action.now }
    {
        let call = self.latest.call(action)?;
        let mut records = [Record::new()];
        let _made = self.pair.run(&[Task { call, room }], &mut records);
        let [record] = records;
        Some(record)
    }

    /// Ends the session, and hands back the parts of its pair. A receipt under way is given up.
    pub fn end(self) -> (Endpoint, Book, NamedBoard, NamedCarrier)
        ensures { pair_of (as_endpoint result.0) (carried_by result.3) (told_by result.2) result.1 ≡ step_if (pair_of_session self) (give_up_if (awaited self.pair.manager.book.phase)) }
    {
        let Session {
            pair,
            latest: _latest,
        } = self;
        pair.end()
    }
}
