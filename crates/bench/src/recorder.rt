//! A session, and the record of its calls.
use crate::lines::Asked;
use crate::record::{packets, standing};
use crate::words::{Reply, Text};
use pair::record::Record;
use script::command::Action;
use session::session::Session;
use std::alloc::{AllocError, Global};

/// A session, and how many of its calls were noted. It cannot be let go: `end` ends its session.
pub(crate) struct Recorder {
    pub(crate) session: Session,
    pub(crate) calls: usize,
}

/// The record of a call: the line that repeats it and tells what it handed back, and where all stands after it.
#[derive(Drop)]
pub(crate) struct Note {
    pub(crate) call: String,
    pub(crate) standing: String,
}

impl Recorder {
    /// A recorder of a session that has made no call.
    pub(crate) fn new(session: Session) -> Recorder {
        Recorder { session, calls: 0 }
    }

    // What a call handed back, in words. Keeps what later calls take up.
    fn told(
        &mut self,
        heap: Global,
        action: &Action,
        made: Option<Record>,
    ) -> Result<String, AllocError> {
        let Some(record) = made else {
            return packets(heap, self.session.pair.carrier());
        };
        self.session.latest.keep(heap, action, &record)?;
        let reply = Reply(&record);
        format!(in heap; "{reply}")
    }

    /// Notes a call that was made: counts it, and keeps what later calls take up.
    pub(crate) fn note(
        &mut self,
        heap: Global,
        call: Asked<'_>,
        made: Option<Record>,
    ) -> Result<Note, AllocError> {
        let told = self.told(heap, call.action, made)?;
        self.calls = self.calls.saturating_add(1);
        let number = self.calls;
        let text = Text(call.text);
        Ok(Note {
            call: format!(in heap; "{number} {text}: {told}")?,
            standing: standing(heap, &self.session.pair)?,
        })
    }

    /// Ends the session.
    pub(crate) fn end(self) {
        let Recorder {
            session,
            calls: _calls,
        } = self;
        let _parts = session.end();
    }
}
