//! A component that moves: its alphabet, and the steps of its table term by term.

ghost use Rattle.std.specs.Prelude.{◌≡◌, ◌<◌, ℕ, IfOk};
ghost use Rattle.acceptances.specs.OfferTests.{can_do, is_unstable};
ghost use Rattle.csp_base.specs.Members.{has};
ghost use Rattle.csp_tables.specs.Prelude.{silent, visible, HasRawForm, RawStep, targets_in};
ghost use Rattle.numbered_walks.specs.Prelude.{IsDrawn, Can, OwnsItsSteps, targets};

use crate::draws::{Drawn, drawn_by, drawn_silently};
use crate::rows::{silent_rows, step_rows, steps_by};
use acceptances::event_sets;
use containers::Items;
use csp_base::{Event, EventSet, Made};
use csp_tables::RawTable;
use std::alloc::Global;
use std::marker::Model;

/// A component given by its alphabet and its table, with its steps sorted out term by term. Contracts see it as these two.
pub struct Mover<'a> {
    alphabet: &'a EventSet,
    table: &'a RawTable,
    silent: Vec<Items<u32>>,
    steps: Vec<Items<(Event, u32)>>,
    offers: Vec<EventSet>,
}

impl<'a> Drop for Mover<'a> {
    fn drop(self) {
        let Mover {
            alphabet,
            table,
            silent,
            steps,
            offers,
        } = self;
    }
}

impl<'a> Model for Mover<'a> {
    ghost use Rattle.csp_tables.specs.RawForm.{HasRawForm};
    ghost use Rattle.acceptances.specs.OfferTests.{AreOffers};
    ghost use Rattle.numbered_walks.specs.Rows.{AreSilentRows, AreStepRows};
    ghost use Rattle.numbered_walks.specs.Numbered.{Numbered, OwnsItsSteps};

    ghost Value = { Numbered };

    ghost view = { λ m. record { alphabet = m.alphabet.now; table = m.table.now } };

    ghost invariant = { λ m. HasRawForm m.table.now × OwnsItsSteps m.alphabet.now m.table.now
        × AreSilentRows m.table.now m.silent.items × AreStepRows m.table.now m.steps.items
        × AreOffers m.table.now m.offers.items };
}

impl<'a> Mover<'a> {
    /// The component with this alphabet and this table. It goes over each step some times.
    pub fn new(alloc: Global, alphabet: &'a EventSet, table: &'a RawTable) -> Made<Mover<'a>>
        requires { OwnsItsSteps alphabet.now table.now }
        ensures { IfOk result (λ made. made ≡ record { alphabet = alphabet.now; table = table.now }) }
    {
        let _count = table.count();
        let silent = silent_rows(alloc, table)?;
        let steps = step_rows(alloc, table)?;
        let offers = event_sets(alloc, table)?;
        Ok(Mover {
            alphabet,
            table,
            silent,
            steps,
            offers,
        })
    }

    // The events that it takes part in.
    pub(crate) fn alphabet(&self) -> &EventSet
        ensures value { result.now ≡ self.now.alphabet }
        ensures form { HasRawForm self.now.table }
        ensures own { OwnsItsSteps self.now.alphabet self.now.table }
    {
        self.alphabet
    }

    // The events that it offers at a term.
    pub(crate) fn offers(&self, term: u32) -> &EventSet
        requires { term < self.now.table.count }
        ensures offers { (e : ℕ) → has result.now e ≡ can_do self.now.table term e }
    {
        &self.offers[term as usize]
    }

    // The targets of the silent steps from a term, in their order.
    fn silent_targets(&self, term: u32) -> &[u32]
        requires { term < self.now.table.count }
        ensures value { result.now ≡ targets_in self.now.table term silent }
        ensures form { HasRawForm self.now.table }
    {
        self.silent[term as usize].as_slice()
    }

    // The steps from a term by an event, in their order.
    fn steps_by(&self, term: u32, event: Event) -> &[(Event, u32)]
        requires { term < self.now.table.count }
        ensures value { targets result.now ≡ targets_in self.now.table term (visible event) }
        ensures form { HasRawForm self.now.table }
    {
        steps_by(self.steps[term as usize].as_slice(), event)
    }

    // Whether a silent step leads from a term.
    pub(crate) fn is_restless(&self, term: u32) -> bool
        requires { term < self.now.table.count }
        ensures { result ≡ is_unstable self.now.table term }
    {
        !self.silent_targets(term).is_empty()
    }

    // Where it goes silently from a term, by the numbers after this one.
    pub(crate) fn draw_silently(&self, term: u32, number: u32) -> Drawn
        requires term { term < self.now.table.count }
        requires can { Can silent self.now term }
        ensures drawn { IsDrawn (targets_in self.now.table term silent) number result.to result.number }
        ensures within { result.to < self.now.table.count }
    {
        drawn_silently(self.silent_targets(term), number)
    }

    // Where it goes by an event from a term, by the numbers after this one.
    pub(crate) fn draw_by(&self, term: u32, event: Event, number: u32) -> Drawn
        requires term { term < self.now.table.count }
        requires can { Can (visible event) self.now term }
        ensures drawn { IsDrawn (targets_in self.now.table term (visible event)) number result.to result.number }
        ensures within { result.to < self.now.table.count }
    {
        drawn_by(self.steps_by(term, event), number)
    }
}
