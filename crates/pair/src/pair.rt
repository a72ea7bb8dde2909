//! A pair of both ends.
use crate::manager::Manager;
use endpoint::types::Endpoint;

/// An endpoint and a book, with one board and one carrier, and the receipt under way. It cannot be let go: `end` gives an
/// open receipt up. The parts change by the calls of the pair alone.
// It has no model: in the definitions the endpoint's marks are a function of the place, and a model's value cannot hold a
// function.
pub struct Pair<B, C> {
    pub(crate) endpoint: Endpoint,
    pub(crate) manager: Manager,
    pub(crate) board: B,
    pub(crate) carrier: C,
}
