//! A script: the commands of its lines, up to the first line that is none.
use script::command::{Action, Command};
use script::parse::parse;
use std::alloc::{AllocError, Global};
use syntax::fault::Fault;

/// A line of a script and its command.
#[derive(Drop)]
pub(crate) struct Step {
    pub(crate) line: usize,
    pub(crate) command: Command,
}

/// A call that a script asks for, as the record repeats it, and the length of the buffer that is lent to it.
#[derive(Clone, Copy)]
pub(crate) struct Asked<'a> {
    pub(crate) action: &'a Action,
    pub(crate) text: &'a [u8],
    pub(crate) room: usize,
}

/// The first line of a script that is no command, and why.
#[derive(Clone, Copy)]
pub(crate) struct BadLine {
    pub(crate) line: usize,
    pub(crate) fault: Fault,
}

/// The steps of a script up to its first bad line, and that line, if there is one.
#[derive(Drop)]
pub(crate) struct Script {
    steps: Vec<Step>,
    pub(crate) bad: Option<BadLine>,
}

impl Step {
    /// The call that it asks for; none where it is a setting.
    pub(crate) fn call(&self) -> Option<Asked<'_>> {
        match &self.command {
            Command::Call { action, text, room } => Some(Asked {
                action,
                text,
                room: *room,
            }),
            _ => None,
        }
    }
}

impl Asked<'_> {
    /// How often the call is made.
    pub(crate) fn times(self) -> usize {
        match self.action {
            Action::Tick { count } => *count,
            _ => 1,
        }
    }
}

impl Script {
    /// The script of a text.
    pub(crate) fn read(heap: Global, text: &[u8]) -> Result<Script, AllocError> {
        let mut steps = Vec::new(heap);
        for (i, bytes) in text.split(|byte| *byte == b'\n').enumerate() {
            let line = i.saturating_add(1);
            match parse(heap, bytes) {
                Ok(Some(command)) => steps.push(Step { line, command })?,
                Ok(None) => {}
                Err(fault) => {
                    let bad = Some(BadLine { line, fault });
                    return Ok(Script { steps, bad });
                }
            }
        }
        Ok(Script { steps, bad: None })
    }

    /// All steps.
    pub(crate) fn steps(&self) -> &[Step] {
        self.steps.as_slice()
    }

    /// The settings that stand before the first call, and all that stands from it on.
    pub(crate) fn parts(&self) -> (&[Step], &[Step]) {
        let steps = self.steps();
        let first = steps
            .iter()
            .position(|step| step.call().is_some())
            .unwrap_or(steps.len());
        steps.split_at_checked(first).unwrap_or((steps, &[]))
    }
}
