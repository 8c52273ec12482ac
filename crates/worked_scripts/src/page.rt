//! What is printed, and the commands whose answers stand there.

use csp_base::{Bytes, Made};
use dl_outside::{SureShelf, SureSink};
use dl_top::{Words, dl_sure};
use std::alloc::Global;

/// Whether something was written, unless memory ran out.
pub type Written = Made<()>;

/// What stands between the text of a script and that of its specification.
pub const SPECIFICATION: &[u8] = b"\n--- specification\n";

/// What is printed, line after line.
#[derive(Drop)]
pub struct Page {
    /// Where its lines have their memory.
    pub alloc: Global,
    /// The lines.
    pub lines: Bytes,
}

/// The bytes before the first place where the mark stands, and those behind the mark.
pub fn cut_at<'a>(bytes: &'a [u8], mark: &[u8]) -> Option<(&'a [u8], &'a [u8])> {
    if mark.is_empty() {
        return None;
    }
    let at = bytes.windows(mark.len()).position(|window| window == mark)?;
    let front = bytes.get(..at)?;
    let rest = bytes.get(at..)?.get(mark.len()..)?;
    Some((front, rest))
}

/// The word, with the name of the text in place of SCRIPT and that of its specification in place of SPEC.
fn word_or_text(word: &[u8]) -> &[u8] {
    if word == b"SCRIPT".as_slice() {
        return b"text";
    }
    if word == b"SPEC".as_slice() {
        return b"specification";
    }
    word
}

/// The words of a command, which blanks separate.
pub fn words_of(alloc: Global, command: &[u8]) -> Made<Words> {
    let mut words = Words::new(alloc);
    for word in command.split(|byte| *byte == b' ') {
        if !word.is_empty() {
            words.push(word_or_text(word))?;
        }
    }
    Ok(words)
}

/// The shelf that holds the text, or that of a script and that of its specification where the text is of both.
fn shelf_of(alloc: Global, text: &[u8]) -> Made<SureShelf> {
    let mut shelf = SureShelf::new(alloc);
    let Some((script, specification)) = cut_at(text, SPECIFICATION) else {
        shelf.put_text(b"text", text)?;
        return Ok(shelf);
    };
    shelf.put_text(b"text", script)?;
    shelf.put_text(b"specification", specification)?;
    Ok(shelf)
}

/// The status of the command for the text, and what is sent.
pub fn answer(alloc: Global, command: &[u8], text: &[u8]) -> Made<(u8, SureSink)> {
    let words = words_of(alloc, command)?;
    let mut shelf = shelf_of(alloc, text)?;
    let mut out = SureSink::new(alloc, u32::MAX);
    let status = dl_sure(alloc, &words, &mut shelf, &mut out);
    Ok((status, out))
}

impl Page {
    /// Adds bytes.
    pub fn push(&mut self, bytes: &[u8]) -> Written {
        self.lines.extend_from_slice(bytes)
    }

    /// Adds the line that answers stand below.
    pub fn push_title(&mut self, title: &[u8]) -> Written {
        self.push(b"=== ")?;
        self.push(title)?;
        self.push(b"\n")
    }

    /// Adds a line of a label and a status.
    pub fn push_status(&mut self, label: &[u8], status: u8) -> Written {
        let alloc = self.alloc;
        let status = format!(in alloc; "{status}\n")?;
        self.push(label)?;
        self.push(status.as_bytes())
    }

    /// Adds a line of a label and the status of what is answered, and what is sent.
    pub fn push_answer(&mut self, label: &[u8], status: u8, sent: &[u8]) -> Written {
        self.push_status(label, status)?;
        self.push(sent)
    }

    /// Adds what the command answers for the text, below its title.
    pub fn push_row(&mut self, title: &[u8], command: &[u8], text: &[u8]) -> Written {
        self.push_title(title)?;
        let (status, out) = answer(self.alloc, command, text)?;
        self.push_answer(b"status ", status, out.sent())
    }
}
