//! The steps of a table that an observer of some events has to follow.

ghost use Rattle.std.specs.Prelude.{◌≡◌, ◌<◌, ◌≤◌, ℕ, IfOk, OnOk, length, replicate, slice_index};
ghost use Rattle.csp_tables.specs.Form.{HasForm};
ghost use Rattle.observed_runs.specs.Prelude.{AreEnough, HaveEnough, pair_at, IsKept};

use containers::Items;
use csp_base::{Event, EventSet, Made};
use csp_tables::Part;
use std::alloc::Global;

/// For each node the steps by events of the set, and of the others the first one to each node.
pub fn steps_of(alloc: Global, part: &Part, events: &EventSet) -> Made<Items<Items<(Event, u32)>>>
    requires { HasForm part.now }
    ensures { IfOk result (λ rows. HaveEnough events.now part.now.table rows) }
{
    let mut marks = no_marks(alloc, part.table().nodes().len())?;
    all_enough(alloc, part, events, &mut marks)
}

// No mark for each of so many nodes.
fn no_marks(alloc: Global, count: usize) -> Made<Vec<u32>>
    ensures { IfOk result (λ marks. marks.items ≡ replicate count 0) }
{
    let marks = vec![in alloc; 0; count]?;
    Ok(marks)
}

// The same, with room for a mark for each node.
fn all_enough(
    alloc: Global,
    part: &Part,
    events: &EventSet,
    marks: &mut [u32],
) -> Made<Items<Items<(Event, u32)>>>
    requires form { HasForm part.now }
    requires marks { length marks.old ≡ length part.now.table }
    requires unmarked { (node : ℕ) → slice_index marks.old node ≤ 0 }
    ensures { IfOk result (λ rows. HaveEnough events.now part.now.table rows) }
{
    let nodes = part.table().nodes();
    let mut rows = Items::new(alloc);
    for (number, node) in nodes.iter().enumerate() {
        let some = enough(alloc, node.next(), events, marks, number as u32 + 1)?;
        rows.push(some)?;
    }
    Ok(rows)
}

// The steps by events of the set, and of the others the first one to each node. It leaves a mark at the nodes of these.
fn enough(
    alloc: Global,
    next: &[(Event, u32)],
    events: &EventSet,
    marks: &mut [u32],
    mark: u32,
) -> Made<Items<(Event, u32)>>
    requires nodes { (k : ℕ) → k < length next.now → (pair_at next.now k).1 < length marks.old }
    requires unmarked { (node : ℕ) → slice_index marks.old node < mark }
    ensures enough { IfOk result (λ some. AreEnough events.now next.now some) }
    ensures marked { (node : ℕ) → slice_index marks.new node ≤ mark }
{
    let mut some = Items::new(alloc);
    for step in next {
        keep(events, &mut some, marks, mark, *step)?;
    }
    Ok(some)
}

// Keeps the step if it is by one of the events, or the first of the others to its node, which gets the mark.
fn keep(
    events: &EventSet,
    some: &mut Items<(Event, u32)>,
    marks: &mut [u32],
    mark: u32,
    step: (Event, u32),
) -> Made<()>
    requires { step.1 < length marks.old }
    ensures kept { OnOk result (IsKept events.now mark step some.old marks.old some.new marks.new) }
    ensures most { ((node : ℕ) → slice_index marks.old node ≤ mark) → (node : ℕ) → slice_index marks.new node ≤ mark }
{
    let (event, node) = step;
    if events.contains(event) {
        some.push(step)?;
        return Ok(());
    }
    if marks[node as usize] == mark {
        return Ok(());
    }
    marks[node as usize] = mark;
    some.push(step)?;
    Ok(())
}
