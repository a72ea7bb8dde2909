//! Values as words of a record.
use event::refusal::Refusal;
use pair::record::Record;
use protocol::types::Phase;
use std::fmt;
use std::str::from_utf8;

/// Bytes, shown as capital hexadecimal digits, `-` where there is none.
#[derive(Clone, Copy)]
pub(crate) struct Hex<'a>(pub(crate) &'a [u8]);

/// A byte, shown as two capital hexadecimal digits.
#[derive(Clone, Copy, Default)]
pub(crate) struct HexByte(pub(crate) u8);

/// Values with commas between them, `-` where there is none.
#[derive(Clone, Copy)]
pub(crate) struct Listed<'a, T>(pub(crate) &'a [T]);

/// Bytes that are text, shown as that text.
#[derive(Clone, Copy)]
pub(crate) struct Text<'a>(pub(crate) &'a [u8]);

/// A state of the book, shown by one word.
#[derive(Clone, Copy)]
pub(crate) struct PhaseName(pub(crate) Phase);

/// What a call handed back, and the bytes that it wrote.
#[derive(Clone, Copy)]
pub(crate) struct Reply<'a>(pub(crate) &'a Record);

/// Why something is refused: the number, and the reason in words.
#[derive(Clone, Copy)]
pub(crate) struct Refused(pub(crate) Refusal);

impl<'a> fmt::Display for Hex<'a> {
    fn fmt<W: fmt::Write>(&self, f: &mut fmt::Formatter<W>) -> fmt::Result {
        if self.0.is_empty() {
            return write!(f, "-");
        }
        for byte in self.0 {
            write!(f, "{byte:02X}")?;
        }
        Ok(())
    }
}

impl fmt::Display for HexByte {
    fn fmt<W: fmt::Write>(&self, f: &mut fmt::Formatter<W>) -> fmt::Result {
        let byte = self.0;
        write!(f, "{byte:02X}")
    }
}

impl<'a, T: fmt::Display> fmt::Display for Listed<'a, T> {
    fn fmt<W: fmt::Write>(&self, f: &mut fmt::Formatter<W>) -> fmt::Result {
        let [first, rest @ ..] = self.0 else {
            return write!(f, "-");
        };
        write!(f, "{first}")?;
        for value in rest {
            write!(f, ",{value}")?;
        }
        Ok(())
    }
}

impl<'a> fmt::Display for Text<'a> {
    fn fmt<W: fmt::Write>(&self, f: &mut fmt::Formatter<W>) -> fmt::Result {
        let text = from_utf8(self.0).unwrap_or("?");
        write!(f, "{text}")
    }
}

impl fmt::Display for PhaseName {
    fn fmt<W: fmt::Write>(&self, f: &mut fmt::Formatter<W>) -> fmt::Result {
        let word = match self.0 {
            Phase::Blind => "blind",
            Phase::Settled => "settled",
            Phase::Holding => "holding",
            Phase::Waiting { .. } => "waiting",
        };
        write!(f, "{word}")
    }
}

impl fmt::Display for Refused {
    fn fmt<W: fmt::Write>(&self, f: &mut fmt::Formatter<W>) -> fmt::Result {
        let refusal = self.0;
        let number = refusal.number();
        write!(f, "refused {number} ({refusal})")
    }
}

impl<'a> fmt::Display for Reply<'a> {
    fn fmt<W: fmt::Write>(&self, f: &mut fmt::Formatter<W>) -> fmt::Result {
        match self.0.reply() {
            None => write!(f, "no receipt"),
            Some(Err(refusal)) => {
                let refused = Refused(refusal);
                write!(f, "{refused}")
            }
            Some(Ok(count)) => {
                let written = Hex(self.0.buffer().get(..count).unwrap_or(&[]));
                write!(f, "ok {count} {written}")
            }
        }
    }
}
