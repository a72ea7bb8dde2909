//! What the book shows, for people.
use crate::recorder::Recorder;
use crate::words::{Hex, HexByte, Refused};
use board::Board;
use event::id::UniqueId;
use event::names::{EventName, ScopeName};
use event::refusal::Refusal;
use pair::record::Record;
use script::command::Action;
use std::alloc::{AllocError, Global};

/// What a showing handed back, as a reading or why there is none.
fn shown(heap: Global, record: &Record) -> Result<String, AllocError> {
    match record.reply() {
        Some(Ok(count)) => {
            let reading = Hex(record.buffer().get(..count).unwrap_or(&[]));
            format!(in heap; "{reading}")
        }
        Some(Err(refusal)) => {
            let refused = Refused(refusal);
            format!(in heap; "{refused}")
        }
        None => String::from_str(heap, "-"),
    }
}

/// A line of the table: the event with its identifier, the scope with the scope ID info, and what is shown.
fn row(heap: Global, id: UniqueId, shown: &str) -> Result<String, AllocError> {
    let name = EventName(id.identifier);
    let identifier = HexByte(id.identifier);
    let event = format!(in heap; "{name} ({identifier})")?;
    let event = event.as_str();
    let name = ScopeName(id.scope);
    let info = id.info;
    let scope = format!(in heap; "{name} {info:08X}")?;
    let scope = scope.as_str();
    format!(in heap; "\n  {event:<52}{scope:<26}{shown}")
}

// Whether it was refused since the book shows nothing at all.
fn shows_nothing(record: &Record) -> bool {
    matches!(
        record.reply(),
        Some(Err(Refusal::StillAwaiting | Refusal::BookBlind))
    )
}

// The line of a source, or of why the book shows nothing at all.
fn line(heap: Global, id: UniqueId, record: &Record) -> Result<String, AllocError> {
    let shown = shown(heap, record)?;
    if shows_nothing(record) {
        return format!(in heap; "\n  {shown}");
    }
    row(heap, id, &shown)
}

impl Recorder {
    // Shows the source at a place, if there is one.
    fn show(&mut self, place: usize) -> Option<(UniqueId, Record)> {
        let id = self.session.pair.board().id(place)?;
        let record = self.session.make(&Action::Show { id }, 64)?;
        Some((id, record))
    }

    /// The table of what the book shows of each source of the board; or why it shows none of them.
    pub(crate) fn table(&mut self, heap: Global) -> Result<String, AllocError> {
        let mut text = String::from_str(heap, "book")?;
        for place in 0..self.session.pair.board().count() {
            let Some((id, record)) = self.show(place) else {
                continue;
            };
            let line = line(heap, id, &record)?;
            text.push_str(&line)?;
            if shows_nothing(&record) {
                break;
            }
        }
        Ok(text)
    }
}
