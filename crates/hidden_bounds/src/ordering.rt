//! The order in which components are taken.

ghost use Rattle.std.specs.Prelude.{◌≡◌, ◌≤◌, ◌<◌, ◌+◌, true, false, length, IfNone, IfOk, IfSome, OnOk};
ghost use Rattle.dl_limits.specs.declared.TheConstants.{MOST_COMPONENTS};
ghost use Rattle.hidden_bounds.specs.Prelude.{AreKnown, AreReopened, IsKnown, StayKnown, one_more, waiting, GoesRoundItself, IsOwnHeight, AreTakenFar, IsFree, IsLeast, IsScope, IsTaking};

use crate::own_graph::own_height;
use crate::own_search::OwnSearch;
use crate::scope::{Scope, hidden_of, shares};
use crate::standings::{Standing, left_over, reopen_standing};
use csp_base::{EventSet, Made};
use csp_tables::RawTable;
use std::alloc::Global;

/// A component that is taken.
#[derive(Clone, Copy)]
pub struct Placed {
    /// Its number.
    pub part: u32,
    /// The greatest number of steps of a walk in its own graph over those taken before.
    pub height: u32,
}

// What is known while components are taken.
#[derive(Drop)]
struct Taking {
    // Those that are taken, in their order.
    order: Vec<Placed>,
    // The hidden events that none of them has.
    left: EventSet,
    // What is known of each component.
    standings: Vec<Standing>,
    // The search in its own graph.
    searches: Vec<OwnSearch>,
}

impl Taking {
    // The height of a component of which nothing is known, where it is free. Where it isn't, that is known from now on.
    fn look_at(&mut self, scope: &Scope<'_>, part: usize) -> Made<Option<u32>>
        requires scope { IsScope scope.now }
        requires so_far { IsTaking scope.now self.old }
        requires within { part < length self.old.standings.items }
        ensures so_far { OnOk result (IsTaking scope.now self.new) }
        ensures stay { OnOk result (StayKnown self.old.standings.items self.new.standings.items) }
        ensures free { IfOk result (λ found. IfSome found (IsFree scope.now self.new part)) }
        ensures known { IfOk result (λ found. IfNone found (IsKnown self.new.standings.items part)) }
    {
        let _program = scope.program;
        if self.standings[part] != Standing::Unknown {
            return Ok(None);
        }
        let table = &scope.tables[part].local.table;
        match height_by(scope.alloc, table, &self.left, self.searches.get_mut(part))? {
            Some(height) => Ok(Some(height)),
            None => {
                self.standings[part] = Standing::Round;
                Ok(None)
            }
        }
    }

    // The least component that is free over those taken, if there is one.
    fn next_free(&mut self, scope: &Scope<'_>) -> Made<Option<Placed>>
        requires scope { IsScope scope.now }
        requires so_far { IsTaking scope.now self.old }
        ensures so_far { OnOk result (IsTaking scope.now self.new) }
        ensures stay { OnOk result (StayKnown self.old.standings.items self.new.standings.items) }
        ensures free { IfOk result (λ found. IfSome found (IsLeast scope.now self.new)) }
        ensures known { IfOk result (λ found. IfNone found (AreKnown self.new.standings.items)) }
    {
        for part in 0..scope.seats.len() {
            match self.look_at(scope, part)? {
                Some(height) => {
                    return Ok(Some(Placed {
                        part: part as u32,
                        height,
                    }));
                }
                None => {}
            }
        }
        Ok(None)
    }

    // The next component is taken.
    fn take(&mut self, scope: &Scope<'_>, placed: Placed) -> Made<()>
        requires scope { IsScope scope.now }
        requires so_far { IsTaking scope.now self.old }
        requires least { IsLeast scope.now self.old placed }
        ensures so_far { OnOk result (IsTaking scope.now self.new) }
        ensures fewer { OnOk result (waiting self.new.standings.items < waiting self.old.standings.items) }
    {
        let events = hidden_of(scope, placed.part)?;
        let alphabet = scope.seats[placed.part as usize].alphabet();
        let rest = self.left.diff(scope.alloc, alphabet)?;
        self.order.push(placed)?;
        self.left = rest;
        self.standings[placed.part as usize] = Standing::Taken;
        reopen(scope, &events, &mut self.standings);
        Ok(())
    }

    // Takes the least component that is free, if there is one.
    fn take_next(&mut self, scope: &Scope<'_>) -> Made<bool>
        requires scope { IsScope scope.now }
        requires so_far { IsTaking scope.now self.old }
        ensures so_far { OnOk result (IsTaking scope.now self.new) }
        ensures known { IfOk result (λ more. more ≡ false → AreKnown self.new.standings.items) }
        ensures fewer { IfOk result (λ more. waiting self.new.standings.items + one_more more
            ≤ waiting self.old.standings.items) }
    {
        match self.next_free(scope)? {
            Some(placed) => {
                self.take(scope, placed)?;
                Ok(true)
            }
            None => Ok(false),
        }
    }

    // Takes components as long as one is free.
    fn take_all(&mut self, scope: &Scope<'_>) -> Made<()>
        requires scope { IsScope scope.now }
        requires so_far { IsTaking scope.now self.old }
        ensures so_far { OnOk result (IsTaking scope.now self.new) }
        ensures known { OnOk result (AreKnown self.new.standings.items) }
    {
        let mut more = true;
        while more {
            more = self.take_next(scope)?;
        }
        Ok(())
    }
}

// The height of an own graph, by the search that is kept for the component.
fn height_by(
    alloc: Global,
    table: &RawTable,
    left: &EventSet,
    search: Option<&mut OwnSearch>,
) -> Made<Option<u32>>
    ensures height { IfOk result (λ found. IfSome found (IsOwnHeight table.now left.now)) }
    ensures round { IfOk result (λ found. IfNone found (GoesRoundItself table.now left.now)) }
{
    match search {
        Some(search) => search.height(alloc, table, left),
        None => own_height(alloc, table, left),
    }
}

// Components that have one of these events may be free from now on.
fn reopen(scope: &Scope<'_>, events: &EventSet, standings: &mut Vec<Standing>)
    requires as_many { length standings.old.items ≡ length scope.now.seats.now }
    requires few { length scope.now.seats.now ≤ MOST_COMPONENTS }
    ensures as_many { length standings.new.items ≡ length standings.old.items }
    ensures reopened { AreReopened scope.now.seats.now events.now standings.old.items standings.new.items }
{
    for part in 0..standings.len() {
        standings[part] = reopen_standing(standings[part], shares(scope, part as u32, events));
    }
}

// A search for each component.
fn no_searches(alloc: Global, count: usize) -> Made<Vec<OwnSearch>> {
    let mut searches = Vec::new(alloc);
    for _part in 0..count {
        searches.push(OwnSearch::new(alloc))?;
    }
    Ok(searches)
}

// Before the first component is taken.
fn nothing_taken(scope: &Scope<'_>) -> Made<Taking>
    ensures { IfOk result (IsTaking scope.now) }
{
    let _program = scope.program;
    let order = Vec::new(scope.alloc);
    let left = scope.hidden.try_clone(scope.alloc)?;
    let standings = vec![in scope.alloc; Standing::Unknown; scope.seats.len()]?;
    let searches = no_searches(scope.alloc, scope.seats.len())?;
    Ok(Taking {
        order,
        left,
        standings,
        searches,
    })
}

// The order in which components are taken as long as one is free, and those that are left.
pub(crate) fn order_of(scope: &Scope<'_>) -> Made<(Vec<Placed>, Vec<u32>)>
    requires { IsScope scope.now }
    ensures { IfOk result (λ made. AreTakenFar scope.now made.0.items made.1.items) }
{
    let mut taking = nothing_taken(scope)?;
    taking.take_all(scope)?;
    let parts = left_over(scope.alloc, taking.standings.as_slice())?;
    Ok((taking.order, parts))
}
