//! The shelf of files and the sink of what prints: what they answer, and what they make of a reader and a printer that fail.

use crate::page::{Page, Written};
use csp_base::Bytes;
use dl_outside::file_shelf::read_text;
use dl_outside::{Counts, FileShelf, LoadFault, Shelf, Sink, SinkFault, StdSink};
use std::cell::Cell;
use std::fmt::Display;
use std::io;
use std::io::Read;

/// What is printed of a fault of a shelf.
fn fault_text(fault: LoadFault) -> &'static [u8] {
    match fault {
        LoadFault::Missing => b"missing",
        LoadFault::TooLong => b"too long",
        LoadFault::Failed => b"failed",
        LoadFault::NoMemory => b"no memory",
    }
}

/// A reader that gives three bytes and then fails.
#[derive(Drop)]
struct Broken {
    is_used: bool,
}

impl Read for Broken {
    fn read(&mut self, buf: &mut [u8]) -> io::Result<usize> {
        if self.is_used || buf.len() < 3 {
            return Err(io::Error::from(io::ErrorKind::Other));
        }
        self.is_used = true;
        Ok(3)
    }
}

/// A printer with room for a number of bytes, of which it takes two at a time.
#[derive(Drop)]
struct Clogged {
    room: Cell<usize>,
}

impl Print for Clogged {
    fn print<D: Display + Drop>(&self, _value: D) -> io::Result<()> {
        Ok(())
    }

    fn println<D: Display + Drop>(&self, _value: D) -> io::Result<()> {
        Ok(())
    }

    fn write_all(&self, _bytes: &[u8]) -> io::Result<()> {
        Ok(())
    }

    fn write_some(&self, bytes: &[u8]) -> io::Result<usize> {
        let room = self.room.get();
        let count = room.min(2).min(bytes.len());
        if count == 0 {
            return Err(io::Error::from(io::ErrorKind::BrokenPipe));
        }
        self.room.set(room - count);
        Ok(count)
    }
}

impl Page {
    /// Adds a line of how a load was answered.
    fn push_loaded(&mut self, label: &[u8], answer: Result<Bytes, LoadFault>) -> Written {
        self.push(label)?;
        match answer {
            Ok(text) => {
                self.push(b": text ")?;
                self.push(text.as_slice())?;
            }
            Err(fault) => {
                self.push(b": ")?;
                self.push(fault_text(fault))?;
            }
        }
        self.push(b"\n")
    }

    /// Adds a line of how the load of the file of this name is answered.
    fn push_load(&mut self, rt: &HostRuntime, label: &[u8], name: &[u8], limit: u32) -> Written {
        let answer = FileShelf::new(rt).load(self.alloc, name, limit);
        self.push_loaded(label, answer)
    }

    /// Adds how files are loaded, of which `abc` has three bytes.
    fn push_files(&mut self, rt: &HostRuntime) -> Written {
        self.push_load(rt, b"a file of three bytes, of at most three", b"abc", 3)?;
        self.push_load(rt, b"the same, of at most two", b"abc", 2)?;
        self.push_load(rt, b"an empty file", b"/dev/null", 0)?;
        self.push_load(rt, b"a file without an end", b"/dev/zero", 9_000)?;
        self.push_load(rt, b"a folder", b"/tmp", 9)?;
        self.push_load(rt, b"no file", b"no/such/file", 9)?;
        self.push_load(rt, b"a name that is no text", b"\xff", 9)
    }

    /// Adds how a read is answered that fails after three bytes, and what is counted of it.
    fn push_broken(&mut self) -> Written {
        let alloc = self.alloc;
        let mut counts = Counts {
            faults: 0,
            taken: 0,
        };
        let answer = read_text(alloc, &mut Broken { is_used: false }, 9, &mut counts);
        self.push_loaded(b"a reader that fails after three bytes", answer)?;
        let Counts { faults, taken } = counts;
        let line = format!(in alloc; "faults {faults} taken {taken}\n")?;
        self.push(line.as_bytes())
    }

    /// Adds a line of how a write was answered.
    fn push_write<O: Sink>(&mut self, sink: &mut O, piece: &[u8]) -> Written {
        match sink.write(piece) {
            Ok(taken) => {
                let alloc = self.alloc;
                let line = format!(in alloc; "taken {taken}\n")?;
                self.push(line.as_bytes())
            }
            Err(SinkFault::Failed) => self.push(b"failed\n"),
            Err(SinkFault::NoMemory) => self.push(b"no memory\n"),
        }
    }

    /// Adds how the sink of a printer with room for five bytes answers.
    fn push_clogged(&mut self) -> Written {
        let printer = Clogged { room: Cell::new(5) };
        let mut sink = StdSink::new(&printer);
        self.push_write(&mut sink, b"")?;
        self.push_write(&mut sink, b"abc")?;
        self.push_write(&mut sink, b"def")?;
        self.push_write(&mut sink, b"f")
    }

    /// Adds what the devices of the system answer.
    pub fn push_system(&mut self, rt: &HostRuntime) -> Written {
        self.push_title(b"the shelf of files")?;
        self.push_files(rt)?;
        self.push_broken()?;
        self.push_title(b"the sink of a printer with room for five bytes")?;
        self.push_clogged()
    }
}
