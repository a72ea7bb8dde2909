//! The promises of a pair of an endpoint and a book, each proved of the rules of both. A function here does nothing: its
//! contract is the promise.
#![tactic(auto)]

ghost use Rattle.protocol.specs.Cases.{WorkedCases, ChangeIsShown, TwoPasts};
ghost use Rattle.protocol.specs.Promise.{BookShowsPresent, BookShowsWhatWas, SyncStartsAnew};
ghost use Rattle.protocol.specs.Refused.{RefusalsLeave};
ghost use Rattle.protocol.specs.Runs.{LawsOfRuns};

/// If the book shows a source whose event is enabled, it shows the board's present reading of it, or the endpoint still
/// marks that source.
pub fn book_shows_present()
    ensures { BookShowsPresent }
{}

/// If the book shows a reading of a source, the board had it there at some moment since the book's last completed sync
/// was accepted.
pub fn book_shows_what_was()
    ensures { BookShowsWhatWas }
{}

/// If two pairs have just completed the same sync and agree in board, link and enabled events, every equal later list of
/// calls brings equal results, bytes, messages, marks and showings, save generations and check words of event messages.
pub fn sync_starts_anew()
    ensures { SyncStartsAnew }
{}

/// In every run of the endpoint: which sources are marked, when a message is first sent, when it is sent again, and its
/// generation.
pub fn runs_obey_laws()
    ensures { LawsOfRuns }
{}

/// A call that is refused leaves all as it was, but an unlawful answer blinds the book, and an unlawful message or one of
/// the remembered generation stays in the buffer.
pub fn refusals_leave()
    ensures { RefusalsLeave }
{}

/// The definitions give the bytes, sets and states of the worked cases.
pub fn worked_cases()
    ensures { WorkedCases }
{}

/// What the first two promises are given can be had: in such a run a change reaches the book.
pub fn change_is_shown()
    ensures { ChangeIsShown }
{}

/// What the third promise asks for can be had: two pairs of unlike pasts meet it.
pub fn two_pasts()
    ensures { TwoPasts }
{}
