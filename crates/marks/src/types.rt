//! Which sources have changed.
ghost use Rattle.std.specs.Prelude.{◌≡◌, length};

use event::reading::Reading;

/// A set of places of a board, with a reading of each: that at its latest change, or for a sync the present one.
#[derive(Clone, Copy)]
pub struct Marks {
    // A word, and not an `Option` for each reading: its `count_ones` gives the number of a list.
    pub(crate) set: u64,
    pub(crate) readings: [Reading; 64],
    ghost whole: { length readings ≡ 64 },
}

/// The marked sources of a board.
#[derive(Drop)]
pub struct Marked<'a, B> {
    pub board: &'a B,
    pub marks: &'a Marks,
}
