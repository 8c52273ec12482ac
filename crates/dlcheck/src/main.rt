//! The program: hands the words of the command line, the system's files and the standard output to the top call, and
//! ends with its answer.
#![tactic(auto)]

use csp_base::{Made, NoMemory};
use dl_outside::{FileShelf, StdSink};
use dl_top::{Words, dl_main};
use std::env::FillError;
use std::process::ExitCode;
use std::rt::Env;

/// The exit status where there is no memory for a word.
const NO_MEMORY: u8 = 5;

/// The room for a word at first, in bytes.
const FIRST_ROOM: usize = 256;

/// The word at this place of the command line, read into so much room.
fn read_word_into<R: Env + AllocGlobal>(
    rt: &R,
    place: usize,
    room: usize,
) -> Made<Result<Vec<u8>, FillError>> {
    let mut word = Vec::new(rt.alloc());
    word.resize(room, 0u8)?;
    match rt.arg(place, word.as_mut_slice()) {
        Ok(len) => {
            word.truncate(len);
            Ok(Ok(word))
        }
        Err(error) => Ok(Err(error)),
    }
}

/// The word at this place of the command line, if there is one. It need not be text: a file may have any name.
fn read_word<R: Env + AllocGlobal>(rt: &R, place: usize) -> Made<Option<Vec<u8>>> {
    let mut room = FIRST_ROOM;
    for _ in 0..usize::BITS {
        match read_word_into(rt, place, room)? {
            Ok(word) => return Ok(Some(word)),
            Err(FillError::NotPresent) => return Ok(None),
            Err(FillError::TooLong) => room = room.saturating_add(room),
        }
    }
    Err(NoMemory)
}

/// The words of the command line, without the program's own name.
fn read_words<R: Env + AllocGlobal>(rt: &R) -> Made<Words> {
    let mut words = Words::new(rt.alloc());
    for place in 1..usize::MAX {
        let Some(word) = read_word(rt, place)? else {
            break;
        };
        words.push(word.as_slice())?;
    }
    Ok(words)
}

fn main(rt: HostRuntime) -> ExitCode {
    let Ok(words) = read_words(&rt) else {
        return ExitCode::from(NO_MEMORY);
    };
    let mut shelf = FileShelf::new(&rt);
    let mut out = StdSink::new(&rt);
    ExitCode::from(dl_main(rt.alloc(), &words, &mut shelf, &mut out))
}
