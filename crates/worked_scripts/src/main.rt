//! Runs the commands on texts that stand in files, and prints what they answer: `worked_scripts TEXTS SCRIPT ROWS PAIRS STEPS`.
//!
//! The file TEXTS holds texts, each below a line that begins with `=== ` and says what the text is an example of. Each is shown, what was shown is
//! shown again, and each is judged. Of the text in the file SCRIPT, each front is shown, and judged by the rule of users and resources. The file ROWS
//! holds texts too, each below a line that begins with `=== ` and has the words of a command, with SCRIPT for the text, then a colon, and what the text
//! is an example of. So does the file PAIRS, where each text is that of a script, the line `--- specification`, and that of its specification, for which
//! SPEC stands. Of the script in the file STEPS, each process is put into a pool twice, and its steps are listed. Last comes what is answered to texts at
//! the limit of length and over devices that fail.
#![tactic(auto)]

mod bounds;
mod devices;
mod page;
mod steps;
mod system;

use crate::page::{Page, Written, answer, cut_at};
use csp_base::{Bytes, Made};
use dl_outside::{FileShelf, Shelf, StdSink};
use dl_top::send::send;
use std::alloc::Global;
use std::env;
use std::process::ExitCode;

/// What stands between two texts, before the line that the second stands below.
const BETWEEN: &[u8] = b"\n=== ";

/// The greatest number of bytes of a file.
const FILE_LIMIT: u32 = 1_048_576;

/// A script without deadlock.
const SCRIPT: &[u8] = b"channel a\nP = a -> P\nassert P :[deadlock free]\n";

const SHOW: &[u8] = b"show SCRIPT";

/// What is printed before the place of a text that is no script.
const NO_SCRIPT: &[u8] = b"refused\n1 no script near line ";

/// The texts of a file, each behind the line that it stands below.
fn texts_of(alloc: Global, file: &[u8]) -> Made<Vec<(&[u8], &[u8])>> {
    let mut texts = Vec::new(alloc);
    let mut rest = cut_at(file, BETWEEN);
    for _ in 0..file.len() {
        let Some((_, titled)) = rest else {
            break;
        };
        rest = cut_at(titled, BETWEEN);
        let text = rest.map_or(titled, |(text, _)| text);
        texts.push(cut_at(text, b"\n").unwrap_or((text, b"")))?;
    }
    Ok(texts)
}

/// Whether the text is shown, or refused as one that is no script.
fn is_shown_or_refused(alloc: Global, text: &[u8]) -> Made<bool> {
    let (status, out) = answer(alloc, SHOW, text)?;
    Ok(status == 0 || (status == 2 && out.sent().starts_with(NO_SCRIPT)))
}

/// The status of the judgement of the text by the rule of users and resources.
fn judge_status(alloc: Global, text: &[u8]) -> Made<u8> {
    let (status, _) = answer(alloc, b"check resource SCRIPT", text)?;
    Ok(status)
}

impl Page {
    /// Adds what is answered where what was shown is shown again, and what is shown then if that is another text.
    fn push_shown_again(&mut self, shown: &[u8]) -> Written {
        let (status, out) = answer(self.alloc, SHOW, shown)?;
        self.push_status(b"show again ", status)?;
        if out.sent() != shown {
            self.push(out.sent())?;
        }
        Ok(())
    }

    /// Adds what is answered where the text is shown, and whether what is shown then is shown as the same text.
    fn push_shown(&mut self, text: &[u8]) -> Written {
        let (status, out) = answer(self.alloc, SHOW, text)?;
        self.push_answer(b"show ", status, out.sent())?;
        if status == 0 {
            self.push_shown_again(out.sent())?;
        }
        Ok(())
    }

    /// Adds what is answered to each text of the file.
    fn push_texts(&mut self, file: &[u8]) -> Written {
        for &(title, text) in texts_of(self.alloc, file)?.as_slice() {
            self.push_title(title)?;
            self.push_shown(text)?;
            let (status, out) = answer(self.alloc, b"check cyclic SCRIPT", text)?;
            self.push_answer(b"check ", status, out.sent())?;
        }
        Ok(())
    }

    /// Adds how many fronts the text has, how many of them are neither shown nor refused, and how many the rule of users and resources refuses and proves.
    fn push_fronts(&mut self, text: &[u8]) -> Written {
        let alloc = self.alloc;
        let (mut others, mut refused, mut proved) = (0u32, 0u32, 0u32);
        for len in 0..text.len() {
            let front = &text[..len];
            if !is_shown_or_refused(alloc, front)? {
                others = others.saturating_add(1);
            }
            match judge_status(alloc, front)? {
                0 => proved = proved.saturating_add(1),
                2 => refused = refused.saturating_add(1),
                _ => {}
            }
        }
        let fronts = text.len();
        let line = format!(in alloc;
            "fronts {fronts} others {others} refused {refused} proved {proved}\n"
        )?;
        self.push(line.as_bytes())
    }

    /// Adds what each row of the file answers.
    fn push_rows(&mut self, file: &[u8]) -> Written {
        for &(title, text) in texts_of(self.alloc, file)?.as_slice() {
            let (command, _) = cut_at(title, b" : ").unwrap_or((title, b""));
            self.push_row(title, command, text)?;
        }
        Ok(())
    }

    /// Adds the lines for the texts of the files, and for devices that fail.
    fn push_all(&mut self, rt: &HostRuntime, files: &[Bytes]) -> Written {
        let [texts, script, rows, pairs, steps] = files else {
            return self.push(b"usage: worked_scripts TEXTS SCRIPT ROWS PAIRS STEPS\n");
        };
        self.push_texts(texts.as_slice())?;
        self.push_title(b"each front of the script")?;
        self.push_fronts(script.as_slice())?;
        self.push_rows(rows.as_slice())?;
        self.push_rows(pairs.as_slice())?;
        self.push_processes(steps.as_slice())?;
        self.push_bounds()?;
        self.push_devices(script.as_slice())?;
        self.push_system(rt)
    }
}

/// The texts of the files that the words of the command line name.
fn load_texts(rt: &HostRuntime) -> Option<Vec<Bytes>> {
    let mut texts = Vec::new(rt.alloc());
    for name in env::args(rt).ok()?.skip(1) {
        let text = FileShelf::new(rt).load(rt.alloc(), name.as_bytes(), FILE_LIMIT);
        texts.push(text.ok()?).ok()?;
    }
    Some(texts)
}

fn main(rt: HostRuntime) -> ExitCode {
    let Some(texts) = load_texts(&rt) else {
        return ExitCode::from(4);
    };
    let mut page = Page {
        alloc: rt.alloc(),
        lines: Bytes::new(rt.alloc()),
    };
    if page.push_all(&rt, texts.as_slice()).is_err() {
        return ExitCode::from(5);
    }
    match send(&mut StdSink::new(&rt), page.lines.as_slice()) {
        Ok(()) => ExitCode::from(0),
        Err(_) => ExitCode::from(4),
    }
}
