//! The own graph of a table, and its height.

ghost use Rattle.std.specs.Prelude.{◌≡◌, ◌<◌, ◌&&◌, ◌||◌, ℕ, nat_eq, length, max, IfNone, IfOk, IfSome, OnOk};
ghost use Rattle.csp_base.specs.Prelude.{greatest, has};
ghost use Rattle.digraph.specs.Digraph.{has_arc};
ghost use Rattle.hidden_bounds.specs.Own.{AreOwnRows, GoesRoundItself, IsOwnHeight, has_step_by};

use csp_base::{Event, EventSet, Made, NoMemory, Stop};
use csp_tables::RawTable;
use digraph::{Rows, longest_walks};
use std::alloc::Global;
use tau_order::silent_rows;

// Adds an arc for a step by one of the events.
fn add_step(rows: &mut Rows, events: &EventSet, step: &(u32, Event, u32)) -> Made<()>
    requires from { step.now.0 < length rows.old }
    requires to { step.now.2 < length rows.old }
    ensures len { length rows.new ≡ length rows.old }
    ensures arcs { OnOk result ((s t : ℕ) → has_arc rows.new s t
        ≡ (has_arc rows.old s t || (nat_eq s step.now.0 && has events.now step.now.1 && nat_eq t step.now.2))) }
{
    if !events.contains(step.1) {
        return Ok(());
    }
    rows.add_arc(step.0, step.2)?;
    Ok(())
}

// Adds an arc for each step by one of the events.
fn add_steps(rows: &mut Rows, table: &RawTable, events: &EventSet) -> Made<()>
    requires size { length rows.old ≡ table.now.count }
    ensures len { length rows.new ≡ length rows.old }
    ensures arcs { OnOk result ((s t : ℕ) → has_arc rows.new s t
        ≡ (has_arc rows.old s t || has_step_by table.now events.now s t)) }
{
    for step in table.steps() {
        add_step(rows, events, step)?;
    }
    Ok(())
}

// The own graph of a table over some events, as a digraph whose vertices are the terms.
fn own_rows(alloc: Global, table: &RawTable, events: &EventSet) -> Made<Rows>
    ensures { IfOk result (AreOwnRows table.now events.now) }
{
    let mut rows = silent_rows(alloc, table)?;
    add_steps(&mut rows, table, events)?;
    Ok(rows)
}

// The larger of two numbers.
fn larger(a: u32, b: &u32) -> u32
    ensures { result ≡ max a b.now }
{
    let b = *b;
    if a < b { b } else { a }
}

// The greatest of the numbers, 0 where there is none.
fn greatest_of(numbers: &[u32]) -> u32
    ensures { result ≡ greatest numbers.now }
{
    let mut most = 0;
    for number in numbers {
        most = larger(most, number);
    }
    most
}

/// The greatest number of steps of a walk in the own graph of a table over some events, or none where that graph has a circle.
///
/// It takes time linear in the number of terms and steps (not proved), and no recursion.
pub fn own_height(alloc: Global, table: &RawTable, events: &EventSet) -> Made<Option<u32>>
    ensures height { IfOk result (λ found. IfSome found (IsOwnHeight table.now events.now)) }
    ensures round { IfOk result (λ found. IfNone found (GoesRoundItself table.now events.now)) }
{
    let rows = own_rows(alloc, table, events)?;
    let _form = table.count();
    match longest_walks(alloc, &rows) {
        Ok(heights) => Ok(Some(greatest_of(heights.as_slice()))),
        Err(Stop::Told(_circle)) => Ok(None),
        Err(Stop::NoMemory) => Err(NoMemory),
    }
}
