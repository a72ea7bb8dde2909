//! The words of a line.
ghost use Rattle.std.specs.Prelude.{◌≡◌, [], ◌++◌, IfOk, IsOk, IsOkUnless, OnOk};
ghost use Rattle.syntax.specs.Lines.{uncommented, blank, word_if, words_of, spaced, texts};

use crate::fault::Fault;
use std::alloc::Global;

// The line up to its comment.
fn before_comment(line: &[u8]) -> &[u8]
    ensures { result.now ≡ uncommented line.now }
{
    match line.iter().position(|byte| *byte == b'#') {
        Some(end) => &line[..end],
        None => line,
    }
}

// Whether a byte stands between words.
fn is_blank(byte: u8) -> bool
    ensures { result ≡ blank byte }
{
    matches!(byte, b' ' | b'\t' | b'\r')
}

// Puts a piece of a line behind the words, unless it is empty.
fn keep<'a>(words: &mut Vec<&'a [u8]>, piece: &'a [u8]) -> Result<(), Fault>
    ensures kept { OnOk result (texts words.new.items ≡ texts words.old.items ++ word_if piece.now) }
    ensures only { IsOkUnless result Fault.OutOfMemory }
{
    if !piece.is_empty() {
        words.push(piece)?;
    }
    Ok(())
}

/// The words of a line, its comment left out.
// A loop: the pieces of a `split`, filtered and collected, take twice as long where blanks stand in a row.
pub fn words<'a>(heap: Global, line: &'a [u8]) -> Result<Vec<&'a [u8]>, Fault>
    ensures words { IfOk result (λ v. texts v.items ≡ words_of (uncommented line.now)) }
    ensures only { IsOkUnless result Fault.OutOfMemory }
{
    let said = before_comment(line);
    let mut words = Vec::new(heap);
    let mut start = 0;
    for (i, byte) in said.iter().enumerate() {
        if is_blank(*byte) {
            keep(&mut words, &said[start..i])?;
            start = i + 1;
        }
    }
    keep(&mut words, &said[start..])?;
    Ok(words)
}

/// Words joined by one blank; no words take no memory.
pub fn joined(heap: Global, words: &[&[u8]]) -> Result<Vec<u8>, Fault>
    ensures text { IfOk result (λ v. v.items ≡ spaced (texts words.now)) }
    ensures only { IsOkUnless result Fault.OutOfMemory }
    ensures none { words.now ≡ [] → IsOk result }
{
    let mut text = Vec::new(heap);
    let [first, rest @ ..] = words else {
        return Ok(text);
    };
    text.extend_from_slice(first)?;
    for word in rest {
        text.push(b' ')?;
        text.extend_from_slice(word)?;
    }
    Ok(text)
}
