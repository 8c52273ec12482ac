//! Seats: a component of a network with its alphabet.

ghost use Rattle.std.specs.Prelude.{◌≡◌, ◌<◌, ◌≤◌, [], ◌∷◌, ◌++◌, OnOk, length};
ghost use Rattle.std.specs.Result.{IsOkAnd};
ghost use Rattle.dl_limits.specs.declared.TheConstants.{MOST_COMPONENTS};

use containers::{Boxed, Items};
use csp_base::{EventSet, Made};
use csp_program::Proc;
use std::alloc::Global;
use std::marker::Model;

/// A component of a network: the process where it begins, and the events that it takes part in.
pub struct Seat {
    term: Boxed<Proc>,
    alphabet: EventSet,
}

impl Drop for Seat {
    fn drop(self) {
        let Seat { term, alphabet } = self;
    }
}

impl Model for Seat {
    ghost use Rattle.std.specs.Coded.{codes};
    ghost use Rattle.csp_program.specs.contracts.processes.Proc as process;
    ghost use Rattle.csp_program.specs.declared.processes.Proc.{Proc};
    ghost use Rattle.csp_tables.specs.Network.{Component};

    ghost Value = { Component Proc };

    ghost coded = { Prim.hlevel (codes, process.the_row.coded) };

    ghost view = { λ s. record { alphabet = s.alphabet; term = s.term } };
}

impl Seat {
    /// The component that begins with this process and has this alphabet.
    pub fn new(term: Boxed<Proc>, alphabet: EventSet) -> Seat
        ensures { result ≡ record { alphabet = alphabet; term = term } }
    {
        Seat { term, alphabet }
    }

    /// The process where the component begins.
    pub fn term(&self) -> &Proc
        ensures { result.now ≡ self.now.term }
    {
        self.term.get()
    }

    /// The events that the component takes part in.
    pub fn alphabet(&self) -> &EventSet
        ensures { result.now ≡ self.now.alphabet }
    {
        &self.alphabet
    }
}

/// The components of a network, from left to right, at most 512.
#[derive(Drop)]
pub struct Layout {
    seats: Items<Seat>,
}

impl Model for Layout {
    ghost use Rattle.std.specs.Coded.{codes};
    ghost use Rattle.std.specs.Prelude.{◌≤◌, List, length};
    ghost use Rattle.csp_program.specs.contracts.processes.Proc as process;
    ghost use Rattle.csp_program.specs.declared.processes.Proc.{Proc};
    ghost use Rattle.dl_limits.specs.declared.TheConstants.{MOST_COMPONENTS};
    ghost use Rattle.csp_tables.specs.Network.{Component};

    ghost Value = { List (Component Proc) };

    ghost coded = { Prim.hlevel (codes, process.the_row.coded) };

    ghost view = { λ l. l.seats };

    ghost invariant = { λ l. length l.seats ≤ MOST_COMPONENTS };
}

impl Layout {
    // None yet.
    pub(crate) fn new(alloc: Global) -> Layout
        ensures { result ≡ [] }
    {
        Layout {
            seats: Items::new(alloc),
        }
    }

    // How many components there are.
    pub(crate) fn len(&self) -> usize
        ensures value { result ≡ length self.now }
        ensures few { result ≤ MOST_COMPONENTS }
    {
        self.seats.len()
    }

    /// The components.
    pub fn seats(&self) -> &[Seat]
        ensures seats { result.now ≡ self.now }
        ensures few { length self.now ≤ MOST_COMPONENTS }
    {
        self.seats.as_slice()
    }

    // One more, which was made.
    pub(crate) fn push_made(&mut self, made: Made<Seat>) -> Made<()>
        requires room { length self.old < MOST_COMPONENTS }
        ensures ok { OnOk result (IsOkAnd made (λ seat. self.new ≡ self.old ++ seat ∷ [])) }
    {
        self.seats.push_made(made)
    }
}
