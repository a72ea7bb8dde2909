//! How the state of the book moves.
ghost use Rattle.std.specs.Prelude.{◌≡◌, ℕ, true, if◌then◌else◌, Ok, Err};
ghost use Rattle.event.specs.declared.refusal.Refusal.TheVariants.{NoneAwaited};
ghost use Rattle.event.specs.Refusals.{first_no};
ghost use Rattle.board.specs.Changes.{handed_back};
ghost use Rattle.list.specs.Lists.{these, lawful_told};
ghost use Rattle.list.specs.View.{left, told_by};
ghost use Rattle.wire.specs.Messages.{read_event, read_answer};
ghost use Rattle.protocol.specs.Book.{blind, awaits as awaits_in, remembers as remembers_in, up_to64, merge as with_entries, answered_to, answer_told, answer_read, hears, heard};
ghost use Rattle.book.specs.Turns.{request_questions, open_questions, Spends};

use crate::parts::{Book, Receipt};
use event::refusal::Refusal;
use list::types::{OccurrenceList, Occurrences, Overflow};
use protocol::types::Phase;
use wire::read::{read_answer, read_event};
use wire::types::{Kind, Message};

impl Book {
    // Forgets all.
    pub(crate) fn go_blind(&mut self)
        ensures { self.new ≡ blind }
    {
        self.table.clear();
        self.phase = Phase::Blind;
        self.remembered = None;
    }

    // Whether a request of this kind is awaited.
    fn awaits(&self, kind: Kind) -> bool
        ensures { result ≡ awaits_in kind self.now.phase }
    {
        self.phase == Phase::Waiting { kind }
    }

    // Spends a receipt, and says of which kind it was, if a request of that kind is awaited.
    pub(crate) fn spend(&self, receipt: Receipt) -> Result<Kind, Refusal>
        ensures { result ≡ (if awaits_in receipt.kind self.now.phase then Ok receipt.kind else Err NoneAwaited) }
    {
        let Receipt { kind } = receipt;
        if self.awaits(kind) {
            Ok(kind)
        } else {
            Err(Refusal::NoneAwaited)
        }
    }

    // Whether a request can be written into a buffer of this length now, or why not.
    pub(crate) fn may_write(&self, room: usize) -> Result<(), Refusal>
        ensures { result ≡ handed_back (first_no (request_questions self.now.phase room)) }
    {
        if room < 217 {
            return Err(Refusal::RequestBufferShort);
        }
        if let Phase::Waiting { .. } = self.phase {
            return Err(Refusal::StillAwaiting);
        }
        Ok(())
    }

    // Whether the book shows its entries now, or why not.
    pub(crate) fn may_show(&self) -> Result<(), Refusal>
        ensures { result ≡ handed_back (first_no (open_questions self.now.phase)) }
    {
        match self.phase {
            Phase::Waiting { .. } => Err(Refusal::StillAwaiting),
            Phase::Blind => Err(Refusal::BookBlind),
            Phase::Settled | Phase::Holding => Ok(()),
        }
    }

    // Whether it is the remembered generation.
    fn remembers(&self, generation: u8) -> bool
        ensures { result ≡ remembers_in self.now.remembered generation }
    {
        self.remembered == Some(generation)
    }

    // Enters a list, unless there is a 65th entry.
    fn absorb(&mut self, list: Occurrences, phase: Phase, remembered: Option<u8>)
        ensures { self.new ≡ up_to64 phase (with_entries self.old.entries (left list.entry)) remembered }
    {
        if self.table.merge(list) {
            self.phase = phase;
            self.remembered = remembered;
        } else {
            self.go_blind();
        }
    }

    // Takes the occurrences of an answer to a request of this kind.
    fn settle(&mut self, kind: Kind, list: Occurrences)
        requires { lawful_told (these (left list)) ≡ true }
        ensures { self.new ≡ answered_to kind (left list.entry) self.old }
    {
        match kind {
            Kind::Sync => {
                self.table.clear();
                self.absorb(list, Phase::Settled, None);
            }
            Kind::Ack => {
                let remembered = self.remembered;
                self.absorb(list, Phase::Settled, remembered);
            }
        }
    }

    // Takes the list of an answer to a request of this kind.
    fn take_list(&mut self, kind: Kind, list: OccurrenceList)
        requires { lawful_told (told_by list) ≡ true }
        ensures { self.new ≡ answer_told kind (told_by list.entry) self.old }
    {
        match list {
            Ok(list) => self.settle(kind, list),
            Err(Overflow) => self.go_blind(),
        }
    }

    // Takes the answer to a request of this kind.
    pub(crate) fn take_answer(&mut self, kind: Kind, bytes: &[u8]) -> Result<usize, Refusal>
        ensures { Spends (answer_read kind (read_answer bytes.now) self.old) self.new result }
    {
        let Ok(Message::Answer { list, .. }) = read_answer(bytes) else {
            self.go_blind();
            return Err(Refusal::UnlawfulAnswer);
        };
        self.take_list(kind, list);
        Ok(0)
    }

    // Takes the list of a message of another generation than the remembered one.
    fn take_event(&mut self, generation: u8, list: OccurrenceList)
        ensures { (retries : ℕ) → self.new ≡ hears self.old.phase self.old (record { generation = generation; retries = retries; told = told_by list.entry }) }
    {
        match (self.phase, list) {
            (Phase::Settled, Ok(list)) => self.absorb(list, Phase::Holding, Some(generation)),
            _ => self.go_blind(),
        }
    }

    // Takes a message that was fetched, and counts its bytes.
    pub(crate) fn hear(&mut self, bytes: &[u8]) -> Result<usize, Refusal>
        ensures { Spends (heard self.old.phase bytes.now (read_event bytes.now) self.old) self.new result }
    {
        let Ok(
            Message::Event {
                generation,
                list,
                ..
            },
        ) = read_event(bytes)
        else {
            return Err(Refusal::UnlawfulMessage);
        };
        if self.remembers(generation) {
            return Err(Refusal::SameGeneration);
        }
        self.take_event(generation, list);
        Ok(bytes.len())
    }
}
