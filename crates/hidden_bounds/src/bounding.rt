//! The bound on hidden events.

ghost use Rattle.std.specs.Prelude.{◌≡◌, ◌≤◌, ◌<◌, ◌+◌, ◌*◌, ◌^◌, ◌++◌, ◌∷◌, [], suc, length, take, slice_get, if◌then◌else◌, IfErr, IfNone, IfOk, IfSome, OnOk, Some};
ghost use Rattle.csp_base.specs.Stops.{Tells};
ghost use Rattle.dl_limits.specs.declared.TheConstants.{MOST_COMPONENTS};
ghost use Rattle.hidden_steps.specs.Order as meant;
ghost use Rattle.network_stages.specs.Tables.{AreTablesOf};
ghost use Rattle.process_steps.specs.ComponentStep.{ProcessStep};
ghost use Rattle.hidden_bounds.specs.Prelude.{AreWithin, alphabet_at, taken_in, IsBound, PassesAt, TellsLoop, AreBounds, IsNextSum, TellsSum, sum_before};
ghost use Rattle.hidden_bounds.specs.declared.ordering.Placed.{Placed as PlacedValue};

use crate::ordering::{Placed, order_of};
use crate::scope::{Scope, hidden_of, shares};
use containers::Items;
use csp_base::{EventSet, Made, Stop};
use csp_program::Program;
use network_layout::Seat;
use network_stages::ComponentTable;
use std::alloc::Global;

/// A network in which hidden events are bounded.
pub struct HiddenBound {
    /// The components in the order in which they are taken.
    pub order: Items<Placed>,
    /// What their bounds add up to: at most as many steps of the network follow one another that are silent or by a hidden event.
    pub bound: u64,
}

impl Drop for HiddenBound {
    fn drop(self) {
        let HiddenBound { order, bound } = self;
    }
}

/// Why no bound is told.
#[derive(Drop)]
pub enum LoopFault {
    /// Some components are not taken.
    NoOrder {
        /// These, rising.
        parts: Items<u32>,
    },
    /// All are taken, and the bounds add up to more than 64 bits hold.
    BoundLimit {
        /// The component in the order at which they first do.
        part: u32,
    },
}

// A number where it counts, and else 0.
fn number_if(counts: bool, number: u64) -> u64
    ensures { result ≡ (if counts then number else 0) }
{
    if counts { number } else { 0 }
}

// What the bounds add up to of the components at the front of the order that have a hidden event in common with the component `part`.
fn shared_bounds(scope: &Scope<'_>, order: &[Placed], bounds: &[u64], part: u32) -> Made<u64>
    requires part { part < length scope.now.seats.now }
    requires within { AreWithin (length scope.now.seats.now) order.now }
    requires fewer { length bounds.now ≤ length order.now }
    requires bounds { AreBounds scope.now.hidden.now scope.now.seats.now order.now bounds.now }
    requires fits { sum_before scope.now.hidden.now scope.now.seats.now order.now (length bounds.now) < 2 ^ 64 }
    ensures { IfOk result (λ total. total ≡ meant.shared_bounds scope.now.hidden.now
        (alphabet_at scope.now.seats.now part) (taken_in scope.now.seats.now (take (length bounds.now) order.now))) }
{
    let events = hidden_of(scope, part)?;
    let mut total = 0;
    for place in 0..bounds.len() {
        let number = number_if(shares(scope, order[place].part, &events), bounds[place]);
        total += number;
    }
    Ok(total)
}

// A height, once and once more for each of the shared ones; or none where 64 bits don't hold it.
fn bound_of(height: u32, shared: u64) -> Option<u64>
    ensures some { IfSome result (λ bound. bound ≡ height * suc shared) }
    ensures none { IfNone result (2 ^ 64 ≤ height * suc shared) }
{
    match u64::from(height).checked_mul(shared) {
        Some(more) => more.checked_add(u64::from(height)),
        None => None,
    }
}

// A bound, and the sum with it; or none where 64 bits don't hold that.
fn with_sum(total: u64, bound: u64) -> Option<(u64, u64)>
    ensures some { IfSome result (λ made. (made.0 ≡ bound) × (made.1 ≡ total + bound)) }
    ensures none { IfNone result (2 ^ 64 ≤ total + bound) }
{
    match total.checked_add(bound) {
        Some(sum) => Some((bound, sum)),
        None => None,
    }
}

// The bound of the next component, and the sum with it; or none where 64 bits don't hold that.
fn next_sum(
    scope: &Scope<'_>,
    order: &[Placed],
    bounds: &[u64],
    total: u64,
) -> Made<Option<(u64, u64)>>
    requires within { AreWithin (length scope.now.seats.now) order.now }
    requires next { length bounds.now < length order.now }
    requires bounds { AreBounds scope.now.hidden.now scope.now.seats.now order.now bounds.now }
    requires total { total ≡ sum_before scope.now.hidden.now scope.now.seats.now order.now (length bounds.now) }
    ensures some { IfOk result (λ found. IfSome found
        (λ made. IsNextSum scope.now.hidden.now scope.now.seats.now order.now (length bounds.now) made.0 made.1)) }
    ensures none { IfOk result (λ found. IfNone found
        ((p : PlacedValue) → slice_get order.now (length bounds.now) ≡ Some p
        → PassesAt scope.now.hidden.now (taken_in scope.now.seats.now order.now) p.part)) }
{
    let placed = order[bounds.len()];
    let shared = shared_bounds(scope, order, bounds, placed.part)?;
    match bound_of(placed.height, shared) {
        Some(bound) => Ok(with_sum(total, bound)),
        None => Ok(None),
    }
}

// Adds a bound.
fn add(bounds: &mut Vec<u64>, bound: u64) -> Made<()>
    ensures { OnOk result (bounds.new.items ≡ bounds.old.items ++ bound ∷ []) }
{
    bounds.push(bound)?;
    Ok(())
}

// The bounds of all components in their order, added up.
fn add_up(scope: &Scope<'_>, order: &[Placed]) -> Result<u64, Stop<LoopFault>>
    requires within { AreWithin (length scope.now.seats.now) order.now }
    ensures total { IfOk result (λ total. total ≡ meant.hidden_bound scope.now.hidden.now
        (taken_in scope.now.seats.now order.now)) }
    ensures told { IfErr result (Tells (TellsSum scope.now.hidden.now scope.now.seats.now order.now)) }
{
    let mut bounds = Vec::new(scope.alloc);
    let mut total: u64 = 0;
    for place in 0..order.len() {
        match next_sum(scope, order, bounds.as_slice(), total)? {
            Some((bound, sum)) => {
                add(&mut bounds, bound)?;
                total = sum;
            }
            None => {
                return Err(Stop::Told(LoopFault::BoundLimit {
                    part: order[place].part,
                }));
            }
        }
    }
    Ok(total)
}

/// A bound on the steps of a network that follow one another and are silent or by a hidden event. Components are taken one after another, each time the
/// least one whose own graph over those taken has no circle; `NoOrder` comes exactly where that leaves some, and `BoundLimit` exactly where all are
/// taken and the sum of their bounds is more than 64 bits hold.
///
/// Own graphs are looked at again only where a component is taken that shares a hidden event.
pub fn livelock(
    alloc: Global,
    program: &Program,
    seats: &[Seat],
    tables: &[ComponentTable],
    hidden: &EventSet,
) -> Result<HiddenBound, Stop<LoopFault>>
    requires tables { AreTablesOf program.now seats.now tables.now }
    requires few { length seats.now ≤ MOST_COMPONENTS }
    ensures bound { IfOk result (IsBound (ProcessStep program.now) hidden.now seats.now) }
    ensures told { IfErr result (Tells (TellsLoop (ProcessStep program.now) hidden.now seats.now)) }
{
    let scope = Scope {
        alloc,
        program,
        seats,
        tables,
        hidden,
    };
    let (order, parts) = order_of(&scope)?;
    let parts = Items::from_vec(parts);
    if !parts.is_empty() {
        return Err(Stop::Told(LoopFault::NoOrder { parts }));
    }
    let bound = add_up(&scope, order.as_slice())?;
    Ok(HiddenBound {
        order: Items::from_vec(order),
        bound,
    })
}
