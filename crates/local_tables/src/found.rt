//! What an exploration has found so far.

ghost use Rattle.std.specs.Prelude.{◌≡◌, ◌<◌, ◌≤◌, ◌^◌, ◌⊎◌, ◌∷◌, [], ℕ, Some, length, slice_get, IfOk, IfErr, OnOk};
ghost use Rattle.csp_base.specs.Lists.{StandsIn};
ghost use Rattle.csp_program.specs.Depth.{proc_depth};
ghost use Rattle.csp_program.specs.declared.processes.Proc.{Proc as Process};
ghost use Rattle.dl_limits.specs.declared.TheConstants.{MOST_TERMS, MOST_TERM_DEPTH};
ghost use Rattle.term_pool.specs.Prelude.{IsFront, tree_at};
ghost use Rattle.local_tables.specs.Prelude.{TaskLacks, AreTabled, IsUpTo, IsWithin, terms_at, with_term};

use crate::task::Task;
use containers::{Items, Numbering};
use csp_base::{Event, Made, Stop};
use csp_tables::RawTable;
use dl_limits::{MOST_TERM_DEPTH, MOST_TERMS};
use process_steps::ComponentFault;
use std::alloc::Global;
use term_pool::{Pool, ProcId};

// The terms that were found, as places of the pool, with the step by which each but the first was found; their table; and their sizes together.
#[derive(Drop)]
pub(crate) struct Found {
    pub(crate) terms: Numbering<ProcId>,
    pub(crate) origins: Items<(u32, Option<Event>)>,
    pub(crate) table: RawTable,
    pub(crate) nodes: u64,
}

// The component's own term, if it is within the limits and the room.
pub(crate) fn begin(
    alloc: Global,
    task: &Task<'_>,
    pool: &mut Pool,
) -> Result<Found, Stop<ComponentFault>>
    ensures front { IsFront pool.old pool.new }
    ensures up_to { IfOk result (λ found. IsUpTo task.now pool.new found 0) }
    ensures fault { IfErr result (TaskLacks task.now) }
{
    let first = pool.put(task.start)?;
    let mut terms = Numbering::new(alloc);
    terms.number(first)?;
    let found = Found {
        terms,
        origins: Items::new(alloc),
        table: RawTable::new(alloc),
        nodes: u64::from(pool.size(first)),
    };
    check(task, pool, &found, first)?;
    Ok(found)
}

// The number of the term at a place of the pool, which comes to the end where it is new, with the step by which it was found.
pub(crate) fn term_number(
    pool: &Pool,
    found: &mut Found,
    from: u32,
    event: &Option<Event>,
    to: ProcId,
) -> Made<u32>
    requires few { length found.old.terms ≤ MOST_TERMS }
    requires count { found.old.table.count ≡ length found.old.terms }
    requires nodes { found.old.nodes < 2 ^ 32 }
    requires inside { to.0 < length pool.now }
    ensures found { OnOk result (found.new ≡ with_term pool.now found.old (from, event.now) to) }
    ensures number { IfOk result (λ number. slice_get found.new.terms number ≡ Some to) }
{
    let (number, is_new) = found.terms.insert_full(to)?;
    if !is_new {
        return Ok(number as u32);
    }
    found.origins.push((from, *event))?;
    found.table.add_term();
    found.nodes += u64::from(pool.size(to));
    Ok(number as u32)
}

// Whether the terms and their steps are within the limits and the room, where each term but the newest is of no greater depth than a term may be.
pub(crate) fn check(
    task: &Task<'_>,
    pool: &Pool,
    found: &Found,
    newest: ProcId,
) -> Result<(), Stop<ComponentFault>>
    requires tabled { AreTabled task.now pool.now found.now }
    requires newest { StandsIn found.now.terms newest }
    requires others { (n : ℕ) (x : Process) → slice_get (terms_at pool.now found.now.terms) n ≡ Some x
        → (proc_depth x ≤ MOST_TERM_DEPTH) ⊎ (tree_at pool.now newest ≡ x) }
    ensures within { OnOk result (IsWithin task.now.room pool.now found.now) }
    ensures fault { IfErr result (TaskLacks task.now) }
{
    // Their contracts say that no term stands twice.
    let terms = found.terms.as_slice();
    let _ = pool.len();
    if terms.len() > MOST_TERMS {
        return Err(Stop::Told(ComponentFault::TermCount));
    }
    let depth = pool.depth(newest);
    if depth > MOST_TERM_DEPTH {
        return Err(Stop::Told(ComponentFault::TermDepth));
    }
    if found.nodes > u64::from(task.room.nodes()) {
        return Err(Stop::Told(ComponentFault::TermTotal));
    }
    let steps = found.table.silent().len() + found.table.steps().len();
    if steps > task.room.steps() as usize {
        return Err(Stop::Told(ComponentFault::StepCount));
    }
    Ok(())
}
