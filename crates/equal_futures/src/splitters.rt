//! Refinement by splitters.

ghost use Rattle.std.specs.Prelude.{◌≡◌, ◌≢◌, ◌+◌, ◌<◌, ◌≤◌, ◌^◌, ℕ, length, All, IfOk, OnOk};
ghost use Rattle.std.specs.List.Sorted.{IsNonDecreasingBy};
ghost use Rattle.equal_futures.specs.Future.{AreFutureClasses, NodesRise};
ghost use Rattle.equal_futures.specs.Arrows.{AreAdded, AreFrom, AreGathered, AreIncoming, AreMarkSteps, IsSplitByEvents, event_at};
ghost use Rattle.partitions.specs.Blocks.{HasBlocks, IsCalm, count_of, state_of};
ghost use Rattle.equal_futures.specs.Splits.{AreAllFrom, IsSplitByBlock, IsSplitByMarks};

use crate::classes::{Classes, renumber};
use containers::{Items, empty_rows, push_at};
use csp_base::Made;
use csp_tables::NormNode;
use partitions::{Partition, whole};
use std::alloc::Global;

/// The classes of nodes with equal future, refined by a list of blocks that wait to be used as splitters. A splitter splits
/// each block, for each event, into the nodes from which the event leads into the splitter and the others. Both halves of a
/// block that is split wait then, the smaller one first in turn; so the partition is stable under each block that doesn't
/// wait.
///
/// `marks` holds a number for each node, in their order: equal where the same is accepted there. Nodes of one class can do the same lists of
/// events, and each list leads from them to nodes with equal marks.
pub fn refine(alloc: Global, nodes: &[NormNode], marks: &[u32]) -> Made<Classes>
    requires rising { NodesRise nodes.now }
    requires marks { length marks.now ≡ length nodes.now }
    requires numbered { length nodes.now < 2 ^ 32 }
    ensures { IfOk result (λ made. AreFutureClasses nodes.now marks.now made.numbers.items made.count) }
{
    let rows = incoming_rows(alloc, nodes)?;
    let mut partition = whole(alloc, nodes.len() as u32)?;
    split_by_marks(alloc, marks, &mut partition)?;
    while let Some(block) = partition.next_waiting() {
        split_by_block(alloc, rows.as_slice(), &mut partition, block)?;
    }
    renumber(alloc, partition.blocks.as_slice())
}

// Splits each block into nodes of equal marks.
fn split_by_marks(alloc: Global, marks: &[u32], partition: &mut Partition) -> Made<()>
    requires blocks { HasBlocks (count_of partition.old) (state_of partition.old) }
    requires calm { IsCalm (state_of partition.old) }
    requires marks { length marks.now ≡ count_of partition.old }
    ensures { OnOk result (IsSplitByMarks (count_of partition.old) (state_of partition.old)
        (state_of partition.new) marks.now) }
{
    let mut steps = with_marks(alloc, marks)?;
    split_by_events(alloc, partition, &mut steps)
}

// Splits each block, for each event, into the nodes from which it leads into this block and the others. The rows list, for
// each node, the steps that lead to it.
fn split_by_block(
    alloc: Global,
    rows: &[Items<(u32, u32)>],
    partition: &mut Partition,
    block: u32,
) -> Made<()>
    requires blocks { HasBlocks (count_of partition.old) (state_of partition.old) }
    requires calm { IsCalm (state_of partition.old) }
    requires block { block < length partition.old.firsts.items }
    requires rows { length rows.now ≡ count_of partition.old }
    requires sources { AreAllFrom (count_of partition.old) rows.now }
    ensures { OnOk result (IsSplitByBlock (count_of partition.old) (state_of partition.old)
        (state_of partition.new) rows.now block) }
{
    let mut steps = entering_steps(alloc, rows, partition.members(block))?;
    split_by_events(alloc, partition, &mut steps)
}

// Each node with its mark, as a step by the mark.
fn with_marks(alloc: Global, marks: &[u32]) -> Made<Vec<(u32, u32)>>
    requires { length marks.now < 2 ^ 32 }
    ensures { IfOk result (λ steps. AreMarkSteps marks.now steps.items) }
{
    let mut steps = Vec::new(alloc);
    for (node, mark) in marks.iter().enumerate() {
        steps.push((*mark, node as u32))?;
    }
    Ok(steps)
}

// For each node the steps that lead to it, each by its event and the node from which it leads.
fn incoming_rows(alloc: Global, nodes: &[NormNode]) -> Made<Vec<Items<(u32, u32)>>>
    requires rising { NodesRise nodes.now }
    requires numbered { length nodes.now < 2 ^ 32 }
    ensures { IfOk result (λ rows. AreIncoming nodes.now rows.items (length nodes.now)) }
{
    let mut rows = empty_rows(alloc, nodes.len())?;
    for (source, node) in nodes.iter().enumerate() {
        add_steps(&mut rows, source as u32, node)?;
    }
    Ok(rows)
}

// Adds the steps that lead from a node.
fn add_steps(rows: &mut Vec<Items<(u32, u32)>>, source: u32, node: &NormNode) -> Made<()>
    requires { All (λ step. step.1 < length rows.old.items) node.now.next }
    ensures { OnOk result (AreAdded rows.old.items rows.new.items source node.now.next) }
{
    for (event, to) in node.next() {
        push_at(rows, *to as usize, (event.0, source))?;
    }
    Ok(())
}

// The steps that lead into one of the members.
fn entering_steps(
    alloc: Global,
    rows: &[Items<(u32, u32)>],
    members: &[u32],
) -> Made<Vec<(u32, u32)>>
    requires { All (λ node. node < length rows.now) members.now }
    ensures { IfOk result (λ steps. AreGathered rows.now members.now steps.items) }
{
    let mut steps = Vec::new(alloc);
    for node in members {
        steps.extend_from_slice(rows[*node as usize].as_slice())?;
    }
    Ok(steps)
}

// Splits the blocks by the sources of the steps by each event in turn.
fn split_by_events(
    alloc: Global,
    partition: &mut Partition,
    steps: &mut Vec<(u32, u32)>,
) -> Made<()>
    requires blocks { HasBlocks (count_of partition.old) (state_of partition.old) }
    requires calm { IsCalm (state_of partition.old) }
    requires sources { AreFrom (count_of partition.old) steps.old.items }
    ensures { OnOk result (IsSplitByEvents (count_of partition.old) (state_of partition.old)
        (state_of partition.new) steps.old.items) }
{
    steps.sort_unstable_by_key(|step| step.0);
    split_by_groups(alloc, partition, steps.as_slice())?;
    Ok(())
}

// The same for steps that are sorted by event.
fn split_by_groups(alloc: Global, partition: &mut Partition, steps: &[(u32, u32)]) -> Made<()>
    requires blocks { HasBlocks (count_of partition.old) (state_of partition.old) }
    requires calm { IsCalm (state_of partition.old) }
    requires sources { AreFrom (count_of partition.old) steps.now }
    requires sorted { IsNonDecreasingBy (λ step. step.0) steps.now }
    ensures { OnOk result (IsSplitByEvents (count_of partition.old) (state_of partition.old)
        (state_of partition.new) steps.now) }
{
    let mut from = 0;
    while from < steps.len() {
        let to = group_end(steps, from);
        partition.split(alloc, &steps[from..to])?;
        from = to;
    }
    Ok(())
}

// Where the steps by the event of the one at `from` end.
fn group_end(steps: &[(u32, u32)], from: usize) -> usize
    requires { from < length steps.now }
    ensures after { from < result }
    ensures within { result ≤ length steps.now }
    ensures same { (k : ℕ) → from ≤ k → k < result → event_at steps.now k ≡ event_at steps.now from }
    ensures stops { result < length steps.now → event_at steps.now result ≢ event_at steps.now from }
{
    let mut to = from + 1;
    while to < steps.len() && steps[to].0 == steps[from].0 {
        to += 1;
    }
    to
}
