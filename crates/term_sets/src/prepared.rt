//! A raw table whose steps are sorted out once, so that each question costs what its answer needs.

ghost use Rattle.std.specs.Prelude.{◌≡◌, ◌<◌, ◌↔◌, [], ℕ, All, IsTrue, IfOk, OnOk};
ghost use Rattle.std.specs.List.Sorted.{IsNonDecreasingBy};
ghost use Rattle.csp_base.specs.Members.{has};
ghost use Rattle.tau_order.specs.SilentRows.{AreSilentRows};
ghost use Rattle.term_sets.specs.Marks.{IsUnmarked};
ghost use Rattle.term_sets.specs.Moves.{AreMoveRows, AreMovesOf, IsSilentlyReached};
ghost use Rattle.term_sets.specs.TermSets.{AreMinimalOffers, IsSetAfter, IsTermSet};

use crate::closure::closure_from;
use crate::order::in_order;
use crate::rows::{move_rows, moves_of};
use acceptances::Offers;
use containers::Items;
use csp_base::{Event, EventSet, Made};
use csp_tables::RawTable;
use digraph::Rows;
use std::alloc::Global;
use std::marker::Model;
use tau_order::silent_rows;

/// The silent steps, the steps by events and the offers of a table, term by term. Contracts see it as the table.
#[derive(Drop)]
pub struct Prepared<'a> {
    offers: Offers<'a>,
    silent: Rows,
    moves: Vec<Items<(Event, u32)>>,
}

impl<'a> Model for Prepared<'a> {
    ghost use Rattle.csp_tables.specs.RawTable.{RawTable as RawSteps};
    ghost use Rattle.csp_tables.specs.RawForm.{HasRawForm};
    ghost use Rattle.tau_order.specs.SilentRows.{AreSilentRows};
    ghost use Rattle.term_sets.specs.Moves.{AreMoveRows};

    ghost Value = { RawSteps };

    ghost view = { λ p. p.offers };

    ghost invariant = { λ p. HasRawForm p.offers × AreSilentRows p.offers p.silent
        × AreMoveRows p.offers p.moves.items };
}

impl<'a> Prepared<'a> {
    /// The table with its steps sorted out. It goes over each of them once or twice.
    pub fn new(alloc: Global, table: &'a RawTable) -> Made<Prepared<'a>>
        ensures { IfOk result (λ prepared. prepared ≡ table.now) }
    {
        let _count = table.count();
        let (silent, moves) = step_rows(alloc, table)?;
        let offers = Offers::new(alloc, table)?;
        Ok(Prepared {
            offers,
            silent,
            moves,
        })
    }

    /// A mark for each term, of which none is set.
    pub fn no_marks(&self, alloc: Global) -> Made<Vec<bool>>
        ensures { IfOk result (λ marks. IsUnmarked self.now.count marks.items) }
    {
        vec![in alloc; false; self.silent.len()]
    }

    /// The terms to which silent steps lead from one of the starts, in rising order. No term is marked before, and none after.
    pub fn silent_closure(
        &self,
        alloc: Global,
        starts: &[u32],
        marks: &mut Vec<bool>,
    ) -> Made<Items<u32>>
        requires starts { All (λ t. t < self.now.count) starts.now }
        requires unmarked { IsUnmarked self.now.count marks.old.items }
        ensures members { IfOk result (λ set. (t : ℕ) → IsTrue (has set t) ↔ IsSilentlyReached self.now starts.now t) }
        ensures form { IfOk result (λ set. IsTermSet self.now set) }
        ensures unmarked { OnOk result (IsUnmarked self.now.count marks.new.items) }
    {
        let terms = closure_from(alloc, &self.silent, starts, marks)?;
        Ok(Items::from_vec(terms))
    }

    /// The terms to which the empty trace leads.
    pub fn first_set(&self, alloc: Global) -> Made<Items<u32>>
        ensures after { IfOk result (λ set. IsSetAfter self.now [] set) }
        ensures form { IfOk result (λ set. IsTermSet self.now set) }
    {
        let mut marks = self.no_marks(alloc)?;
        let terms = closure_from(alloc, &self.silent, &[0], &mut marks)?;
        Ok(Items::from_vec(terms))
    }

    /// The steps by events of these terms, event after event.
    pub fn moves(&self, alloc: Global, terms: &[u32]) -> Made<Vec<(Event, u32)>>
        requires { All (λ t. t < self.now.count) terms.now }
        ensures steps { IfOk result (λ moves. AreMovesOf self.now terms.now moves.items) }
        ensures order { IfOk result (λ moves. IsNonDecreasingBy (λ step. step.0) moves.items) }
        ensures within { IfOk result (λ moves. All (λ step. step.1 < self.now.count) moves.items) }
    {
        let moves = moves_of(alloc, &self.moves, terms)?;
        in_order(alloc, moves)
    }

    /// Of the sets of events that the stable ones among these terms offer, those that contain no smaller one.
    pub fn acceptances(&self, alloc: Global, terms: &[u32]) -> Made<Vec<EventSet>>
        requires { All (λ t. t < self.now.count) terms.now }
        ensures { IfOk result (λ sets. AreMinimalOffers self.now terms.now sets.items) }
    {
        let sets = self.offers.minimal(alloc, terms)?;
        Ok(sets)
    }
}

// The silent steps and the steps by events, term by term.
fn step_rows(alloc: Global, table: &RawTable) -> Made<(Rows, Vec<Items<(Event, u32)>>)>
    ensures silent { IfOk result (λ rows. AreSilentRows table.now rows.0) }
    ensures moves { IfOk result (λ rows. AreMoveRows table.now rows.1.items) }
{
    let silent = silent_rows(alloc, table)?;
    let moves = move_rows(alloc, table)?;
    Ok((silent, moves))
}
