//! The exploration of a component.

ghost use Rattle.std.specs.Prelude.{◌≡◌, ◌+◌, ◌<◌, ◌≤◌, Some, length, slice_get, IfOk, IfErr, OnOk};
ghost use Rattle.csp_base.specs.Prelude.{Tells};
ghost use Rattle.csp_steps.specs.declared.step.StepTo.{StepTo as Step};
ghost use Rattle.local_tables.specs.Prelude.{AreTermsOf, IsInside, part_of, step_count, LacksTable, TaskLacks, IsLocalTable, IsAt, IsUpTo, label_of, process_label, step_more};

use crate::found::{Found, begin, check, term_number};
use crate::local_table::{LocalTable, Room};
use crate::origins::trace_to;
use crate::task::Task;
use crate::terms::{Terms, make_room};
use csp_base::{Event, Made, NoMemory, Stop};
use csp_steps::{StepTo, steps_in};
use csp_tables::RawTable;
use process_steps::{ComponentFault, Label};
use std::alloc::Global;
use term_pool::Pool;

/// The table of the component with this term and this alphabet: exactly the terms that it reaches by itself, its own one first, and exactly their steps
/// within the alphabet. Its terms stay in `terms`, whose use ends where there is a fault.
///
/// A fault, but for want of memory, says that it has none: a step needs a value that there isn't (`Value`), there are more than 16,384 terms
/// (`TermCount`), one is deeper than 800 (`TermDepth`), they or their steps are more than there is room for (`TermTotal`, `StepCount`), or it can end
/// (`Terminates`).
///
/// It takes time in proportion to the terms and their steps (not proved).
pub fn explore(
    alloc: Global,
    task: &Task<'_>,
    terms: &mut Terms,
) -> Result<LocalTable, Stop<ComponentFault>>
    requires terms { AreTermsOf task.now.program.now terms.old }
    ensures table { IfOk result (IsLocalTable task.now.program.now (part_of task.now) task.now.room) }
    ensures fault { IfErr result (Tells (LacksTable task.now.program.now (part_of task.now) task.now.room)) }
    ensures terms { OnOk result (AreTermsOf task.now.program.now terms.new) }
{
    make_room(alloc, task.program, terms);
    let mut found = begin(alloc, task, &mut terms.pool)?;
    let mut at = 0;
    while at < found.table.count() {
        follow(alloc, task, terms, &mut found, at)?;
        at += 1;
    }
    // Their contracts say that no term stands twice, and that what is used of the room fits in it.
    let _ = found.terms.as_slice();
    let _ = terms.pool.len();
    let _ = task.room.nodes();
    let _ = task.room.steps();
    let Found { table, nodes, .. } = found;
    let steps = table.silent().len() + table.steps().len();
    let used = Room::new(nodes as u32, steps as u32);
    Ok(LocalTable { table, used })
}

// Follows the term with the number `at`: its steps come into the table.
fn follow(
    alloc: Global,
    task: &Task<'_>,
    terms: &mut Terms,
    found: &mut Found,
    at: u32,
) -> Result<(), Stop<ComponentFault>>
    requires here { at < length found.old.terms }
    requires terms { AreTermsOf task.now.program.now terms.old }
    requires up_to { IsUpTo task.now terms.old.pool found.old at }
    ensures terms { OnOk result (AreTermsOf task.now.program.now terms.new) }
    ensures up_to { OnOk result (IsUpTo task.now terms.new.pool found.new (at + 1)) }
    ensures fault { IfErr result (TaskLacks task.now) }
{
    let id = found.terms.as_slice()[at as usize];
    let Terms { pool, evaluated } = terms;
    let steps = match steps_in(task.program, pool, evaluated, id) {
        Ok(steps) => steps,
        Err(Stop::NoMemory) => return Err(Stop::NoMemory),
        Err(Stop::Told(kind)) => return Err(Stop::Told(ComponentFault::Value { kind })),
    };
    for place in 0..steps.len() {
        take(alloc, task, pool, found, at, steps.as_slice(), place)?;
    }
    Ok(())
}

// Takes one of the steps of the term with the number `at` into the table, if its event is in the alphabet.
fn take(
    alloc: Global,
    task: &Task<'_>,
    pool: &Pool,
    found: &mut Found,
    at: u32,
    steps: &[StepTo],
    place: usize,
) -> Result<(), Stop<ComponentFault>>
    requires inside { place < length steps.now }
    requires at { IsAt task.now pool.now found.old at steps.now place }
    ensures at { OnOk result (IsAt task.now pool.now found.new at steps.now (place + 1)) }
    ensures fault { IfErr result (TaskLacks task.now) }
{
    let StepTo { label, .. } = steps[place];
    match label {
        Label::Silent => lead(task, pool, found, at, steps, place, None),
        Label::Visible(event) => {
            if !task.alphabet.contains(event) {
                return Ok(());
            }
            lead(task, pool, found, at, steps, place, Some(event))
        }
        Label::Tick => {
            let trace = trace_to(alloc, found.origins.as_slice(), at)?;
            Err(Stop::Told(ComponentFault::Terminates { trace }))
        }
    }
}

// Takes the step in, which has this event of the alphabet, or is silent, with the term after it.
fn lead(
    task: &Task<'_>,
    pool: &Pool,
    found: &mut Found,
    at: u32,
    steps: &[StepTo],
    place: usize,
    event: Option<Event>,
) -> Result<(), Stop<ComponentFault>>
    requires inside { place < length steps.now }
    requires at { IsAt task.now pool.now found.old at steps.now place }
    requires label { (s : Step) → slice_get steps.now place ≡ Some s → s.label ≡ process_label (label_of event) }
    requires event { IsInside task.now.alphabet.now (label_of event) }
    ensures at { OnOk result (IsAt task.now pool.now found.new at steps.now (place + 1)) }
    ensures fault { IfErr result (TaskLacks task.now) }
{
    // Its contract says that sizes within the room are below where they stop.
    let _ = task.room.nodes();
    let StepTo { to, .. } = steps[place];
    let number = term_number(pool, found, at, &event, to)?;
    add_step(&mut found.table, at, event, number)?;
    check(task, pool, found, to)?;
    Ok(())
}

// Adds a silent step, or one by the event.
fn add_step(table: &mut RawTable, from: u32, event: Option<Event>, to: u32) -> Made<()>
    requires from { from < table.old.count }
    requires to { to < table.old.count }
    ensures { OnOk result (table.new ≡ step_more table.old from (label_of event) to) }
{
    match event {
        None => table.add_silent(from, to),
        Some(event) => table.add_step(from, event, to),
    }
}
