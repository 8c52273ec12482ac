//! The commands over devices in memory that fail, tell no texts or hold none.

use crate::SCRIPT;
use crate::page::{Page, Written, words_of};
use csp_base::{Bytes, Made};
use dl_outside::{MemoryShelf, MemorySink, QuietShelf, Shelf, SureShelf, SureSink};
use dl_top::dl_main;
use std::alloc::Global;

const CHECK: &[u8] = b"check cyclic one.csp";

const CHECK_RESOURCE: &[u8] = b"check resource one.csp";

const CONFORM: &[u8] = b"conform one.csp one.csp";

/// The words of a title, of a command, and the numbers of the loads that fail.
type LoadRow = (&'static [u8], &'static [u8], &'static [u32]);

/// The commands over shelves that hold the script, of which some loads fail.
const LOADS: [LoadRow; 13] = [
    (b"check where the first load fails", CHECK, &[1]),
    (b"show where the first load fails", b"show one.csp", &[1]),
    (b"check where the second load fails", CHECK, &[2]),
    (b"conform where no load fails", CONFORM, &[]),
    (b"conform where the first load fails", CONFORM, &[1]),
    (b"conform where the second load fails", CONFORM, &[2]),
    (b"conform where both loads fail", CONFORM, &[1, 2]),
    (
        b"conform to a specification that is not there",
        b"conform one.csp none.csp",
        &[],
    ),
    (
        b"conform of a script that is not there",
        b"conform none.csp none.csp",
        &[],
    ),
    (b"no words", b"", &[1]),
    (
        b"two scripts to check",
        b"check cyclic one.csp one.csp",
        &[1],
    ),
    (b"check by a rule that is none", b"check best one.csp", &[1]),
    (b"a trial that is too great", b"trial mesh 23", &[1]),
];

/// A shelf that holds this text under the name `one.csp` and fails at these loads.
fn shelf_of(alloc: Global, text: &[u8], failing: &[u32]) -> Made<MemoryShelf> {
    let mut shelf = MemoryShelf::new(alloc, failing.to_vec(alloc)?);
    shelf.put_text(b"one.csp", text)?;
    Ok(shelf)
}

impl Page {
    /// Adds what the command answers over the shelf, and what it sends to a sink without faults.
    fn push_over<S: Shelf>(&mut self, title: &[u8], command: &[u8], shelf: &mut S) -> Written {
        self.push_title(title)?;
        let words = words_of(self.alloc, command)?;
        let mut out = SureSink::new(self.alloc, 1000);
        let status = dl_main(self.alloc, &words, shelf, &mut out);
        self.push_answer(b"status ", status, out.sent())
    }

    /// Adds what the command answers over a shelf that has this text to hand out, and does not tell it.
    fn push_quiet(&mut self, title: &[u8], command: &[u8], text: &[u8]) -> Written {
        let alloc = self.alloc;
        let mut shelf = QuietShelf::new(vec![in alloc; Bytes::from_slice(alloc, text)?]?);
        self.push_over(title, command, &mut shelf)
    }

    /// Adds what the command answers for this text where the sink takes ten bytes at a call and fails at these ones, and what it took.
    fn push_into(&mut self, title: &[u8], command: &[u8], text: &[u8], failing: &[u32]) -> Written {
        self.push_title(title)?;
        let words = words_of(self.alloc, command)?;
        let mut shelf = shelf_of(self.alloc, text, &[])?;
        let mut out = MemorySink::new(self.alloc, 10, failing.to_vec(self.alloc)?);
        let status = dl_main(self.alloc, &words, &mut shelf, &mut out);
        self.push_answer(b"status ", status, out.sent())?;
        self.push(b"\n")
    }

    /// Adds what is answered over shelves that hold the script, of which some loads fail.
    fn push_loads(&mut self) -> Written {
        for (title, command, failing) in LOADS {
            let mut shelf = shelf_of(self.alloc, SCRIPT, failing)?;
            self.push_over(title, command, &mut shelf)?;
        }
        Ok(())
    }

    /// Adds what is answered over shelves that do not tell their texts, or have none.
    fn push_shelves(&mut self, text: &[u8]) -> Written {
        self.push_quiet(b"check over a shelf that tells no texts", CHECK, SCRIPT)?;
        self.push_quiet(
            b"check of users and resources over a shelf that tells no texts",
            CHECK_RESOURCE,
            text,
        )?;
        let mut empty = SureShelf::new(self.alloc);
        self.push_over(
            b"show over a shelf without texts",
            b"show one.csp",
            &mut empty,
        )
    }

    /// Adds what is answered where the sink fails at some calls.
    fn push_sinks(&mut self) -> Written {
        self.push_into(b"check where no write fails", CHECK, SCRIPT, &[])?;
        self.push_into(b"check where the first write fails", CHECK, SCRIPT, &[1])?;
        self.push_into(b"check where the second write fails", CHECK, SCRIPT, &[2])?;
        self.push_into(b"check where the fourth write fails", CHECK, SCRIPT, &[4])?;
        self.push_into(
            b"a trial where the fourth write fails",
            b"trial forks 5",
            SCRIPT,
            &[4],
        )
    }

    /// Adds what is answered where this text of users and resources is judged and each write fails in turn: nine of them are made.
    fn push_writes(&mut self, text: &[u8]) -> Written {
        let alloc = self.alloc;
        for call in 1u32..11 {
            let title = format!(in alloc; "check of users and resources where write {call} fails")?;
            self.push_into(title.as_bytes(), CHECK_RESOURCE, text, &[call])?;
        }
        Ok(())
    }

    /// Adds what is answered over shelves and into sinks. The text is one of users and resources.
    pub fn push_devices(&mut self, text: &[u8]) -> Written {
        self.push_loads()?;
        self.push_shelves(text)?;
        self.push_sinks()?;
        self.push_writes(text)
    }
}
