//! Raw tables: the numbered terms of one component with their steps.

ghost use Rattle.std.specs.Prelude.{◌≡◌, ◌+◌, ◌<◌, ◌^◌, [], ◌∷◌, ◌++◌, OnOk, OnErr};
ghost use Rattle.csp_tables.specs.RawForm.{HasRawForm};

use csp_base::{Event, Made};
use std::alloc::Global;
use std::marker::Model;

/// The silent steps and the steps by events of one component, over the numbers of its terms. The first term is 0.
pub struct RawTable {
    silent: Vec<(u32, u32)>,
    steps: Vec<(u32, Event, u32)>,
    count: u32,
}

impl Drop for RawTable {
    fn drop(self) {
        let RawTable {
            silent,
            steps,
            count,
        } = self;
    }
}

impl Model for RawTable {
    ghost use Rattle.csp_tables.specs.RawTable.{RawTable as RawSteps};
    ghost use Rattle.csp_tables.specs.RawForm.{HasRawForm};

    ghost Value = { RawSteps };

    ghost view = { λ t. record { silent = t.silent.items; steps = t.steps.items; count = t.count } };

    ghost invariant = { λ t. HasRawForm (record { silent = t.silent.items; steps = t.steps.items; count = t.count }) };
}

impl RawTable {
    /// The table of one term without steps.
    pub fn new(alloc: Global) -> RawTable
        ensures { result ≡ record { silent = []; steps = []; count = 1 } }
    {
        RawTable {
            silent: Vec::new(alloc),
            steps: Vec::new(alloc),
            count: 1,
        }
    }

    /// The silent steps: from which term to which.
    pub fn silent(&self) -> &[(u32, u32)]
        ensures value { result.now ≡ self.now.silent }
        ensures form { HasRawForm self.now }
    {
        self.silent.as_slice()
    }

    /// The steps by events: from which term, by which event, to which term.
    pub fn steps(&self) -> &[(u32, Event, u32)]
        ensures value { result.now ≡ self.now.steps }
        ensures form { HasRawForm self.now }
    {
        self.steps.as_slice()
    }

    /// How many terms there are.
    pub fn count(&self) -> u32
        ensures value { result ≡ self.now.count }
        ensures form { HasRawForm self.now }
    {
        self.count
    }

    /// Adds a term without steps, whose number is the count before.
    pub fn add_term(&mut self)
        requires { self.old.count + 1 < 2 ^ 32 }
        ensures { self.new ≡ record self.old { count = self.old.count + 1 } }
    {
        self.count += 1;
    }

    /// Adds a silent step. An error changes nothing.
    pub fn add_silent(&mut self, from: u32, to: u32) -> Made<()>
        requires from { from < self.old.count }
        requires to { to < self.old.count }
        ensures ok { OnOk result (self.new ≡ record self.old { silent = self.old.silent ++ (from, to) ∷ [] }) }
        ensures err { OnErr result (self.new ≡ self.old) }
    {
        self.silent.push((from, to))?;
        Ok(())
    }

    /// Adds a step by an event. An error changes nothing.
    pub fn add_step(&mut self, from: u32, event: Event, to: u32) -> Made<()>
        requires from { from < self.old.count }
        requires to { to < self.old.count }
        ensures ok { OnOk result (self.new ≡ record self.old { steps = self.old.steps ++ (from, event, to) ∷ [] }) }
        ensures err { OnErr result (self.new ≡ self.old) }
    {
        self.steps.push((from, event, to))?;
        Ok(())
    }
}
