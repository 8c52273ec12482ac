//! What no row of a file says: texts at the limit of length, and the blocks that a set of events is kept in.

use crate::page::{Page, SPECIFICATION, Written};
use crate::{FILE_LIMIT, SCRIPT};
use csp_base::{Bytes, Event, EventSet};

/// Adds the script with so many bytes in all, of which the last are line ends.
fn fill(text: &mut Bytes, len: usize) -> Written {
    text.extend_from_slice(SCRIPT)?;
    for _ in SCRIPT.len()..len {
        text.push(b'\n')?;
    }
    Ok(())
}

impl Page {
    /// Adds what is answered where the script of so many bytes is judged.
    fn push_filled(&mut self, title: &[u8], len: usize) -> Written {
        let mut text = Bytes::new(self.alloc);
        fill(&mut text, len)?;
        self.push_row(title, b"check cyclic SCRIPT", text.as_slice())
    }

    /// Adds what is answered where a script of so many bytes is held against a specification of so many.
    fn push_filled_pair(&mut self, title: &[u8], script: usize, specification: usize) -> Written {
        let mut text = Bytes::new(self.alloc);
        fill(&mut text, script)?;
        text.extend_from_slice(SPECIFICATION)?;
        fill(&mut text, specification)?;
        self.push_row(title, b"conform SCRIPT SPEC", text.as_slice())
    }

    /// Adds the blocks of a set of four events, each with its word.
    fn push_blocks(&mut self) -> Written {
        self.push_title(b"the blocks of the events 0, 63, 64 and 16383")?;
        let alloc = self.alloc;
        let events = [Event(0), Event(63), Event(64), Event(16_383)];
        let set = EventSet::from_events(alloc, &events)?;
        for &(block, word) in set.blocks() {
            let line = format!(in alloc; "{block} {word}\n")?;
            self.push(line.as_bytes())?;
        }
        Ok(())
    }

    /// Adds what is answered to the longest script and to one that is too long, and the blocks of a set.
    pub fn push_bounds(&mut self) -> Written {
        let long = FILE_LIMIT as usize + 1;
        self.push_filled(b"a script of 1,048,576 bytes", FILE_LIMIT as usize)?;
        self.push_filled(b"a script of 1,048,577 bytes", long)?;
        self.push_filled_pair(b"a specification of 1,048,577 bytes", SCRIPT.len(), long)?;
        self.push_filled_pair(
            b"a script and a specification of 1,048,577 bytes",
            long,
            long,
        )?;
        self.push_blocks()
    }
}
