//! Bytes for people.
use std::fmt;

/// Bytes, shown as pairs of capital hexadecimal digits.
#[derive(Clone, Copy)]
pub struct Hex<'a>(pub &'a [u8]);

impl<'a> fmt::Display for Hex<'a> {
    fn fmt<W: fmt::Write>(&self, f: &mut fmt::Formatter<W>) -> fmt::Result {
        let [first, rest @ ..] = self.0 else {
            return Ok(());
        };
        write!(f, "{first:02X}")?;
        for byte in rest {
            write!(f, " {byte:02X}")?;
        }
        Ok(())
    }
}
