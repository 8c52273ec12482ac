//! What no command prints: the places at which processes are put into a pool, and the lists of their steps.

ghost use Rattle.std.specs.Prelude.{◌<◌, length, IfOk};

use crate::page::{Page, Written};
use containers::{Boxed, Key};
use csp_base::{Bytes, Made, NoMemory, Stop};
use csp_parser::read;
use csp_program::{Body, Content, Proc, Program};
use csp_resolve::resolve;
use csp_steps::{Evaluated, StepTo, steps_in};
use dl_limits::MOST_BYTES;
use process_steps::Label;
use report::event_text;
use std::alloc::Global;
use term_pool::{Pool, ProcId};

/// The program of the script that the text spells.
fn program_of(alloc: Global, key: Key, text: &[u8]) -> Option<Boxed<Program>> {
    if text.len() > MOST_BYTES as usize {
        return None;
    }
    match read(alloc, text) {
        Ok(script) => resolve(alloc, key, &script).ok(),
        Err(_) => None,
    }
}

/// The text of a label.
fn label_text(alloc: Global, program: &Program, label: Label) -> Made<Bytes> {
    match label {
        Label::Silent => Bytes::from_slice(alloc, b"silent"),
        Label::Visible(event) => event_text(alloc, program, event),
        Label::Tick => Bytes::from_slice(alloc, b"tick"),
    }
}

impl Page {
    /// Puts the process into the pool, and adds a line of its place and of how many processes the pool has then.
    fn push_place(&mut self, pool: &mut Pool, process: &Proc) -> Made<ProcId>
        ensures { IfOk result (λ id. id.0 < length pool.new) }
    {
        let alloc = self.alloc;
        let id = pool.put(process)?;
        let place = id.0;
        let line = format!(in alloc; "place {place} of {}\n", pool.len())?;
        self.push(line.as_bytes())?;
        Ok(id)
    }

    /// Adds the names of the definitions whose process stands at the place.
    fn push_names(&mut self, content: &Content, pool: &mut Pool, id: ProcId) -> Written {
        for def in content.defs.as_slice() {
            if let Body::Process(process) = &def.body {
                if pool.put(process)? == id {
                    self.push(b" ")?;
                    self.push(def.name.as_slice())?;
                }
            }
        }
        self.push(b"\n")
    }

    /// Adds a line of a step: its label, and the names of the process after it.
    fn push_step(&mut self, program: &Program, pool: &mut Pool, step: StepTo) -> Written {
        let label = label_text(self.alloc, program, step.label)?;
        self.push(label.as_slice())?;
        self.push_names(program.content(), pool, step.to)
    }

    /// Adds a line for each step of the process at a place of the pool.
    fn push_steps(&mut self, program: &Program, pool: &mut Pool, id: ProcId) -> Written
        requires { id.0 < length pool.old }
    {
        let mut evaluated = Evaluated::new(self.alloc, program.key());
        let steps = match steps_in(program, pool, &mut evaluated, id) {
            Ok(steps) => steps,
            Err(Stop::NoMemory) => return Err(NoMemory),
            Err(Stop::Told(_)) => return self.push(b"no value\n"),
        };
        for step in steps.as_slice() {
            self.push_step(program, pool, *step)?;
        }
        Ok(())
    }

    /// Adds the lines of a process that is put into an empty pool, and then put again.
    fn push_process(&mut self, key: Key, program: &Program, process: &Proc) -> Written {
        let mut pool = Pool::new(self.alloc, key);
        self.push_place(&mut pool, process)?;
        let id = self.push_place(&mut pool, process)?;
        self.push_steps(program, &mut pool, id)
    }

    /// Adds the lines of each process of the script, below its name.
    pub fn push_processes(&mut self, text: &[u8]) -> Written {
        let key = Key::of(text);
        let Some(program) = program_of(self.alloc, key, text) else {
            return self.push(b"no program\n");
        };
        let program = program.get();
        for def in program.content().defs.as_slice() {
            if let Body::Process(process) = &def.body {
                self.push_title(def.name.as_slice())?;
                self.push_process(key, program, process)?;
            }
        }
        Ok(())
    }
}
