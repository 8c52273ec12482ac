//! The subset construction.

ghost use Rattle.std.specs.Prelude.{◌≡◌, ◌+◌, ◌<◌, ◌≤◌, ◌++◌, ◌∷◌, [], All, IfErr, IfOk, OnOk, length};
ghost use Rattle.csp_base.specs.Prelude.{Tells};
ghost use Rattle.dl_limits.specs.declared.TheConstants.{MOST_SETS};
ghost use Rattle.csp_tables.specs.Prelude.{RawStep, IsBreadthFirst, HasAcceptances, IsRisingNode};
ghost use Rattle.determinise.specs.Determinised.{FollowsTraces, AreDifferentSets};
ghost use Rattle.determinise.specs.ManySets.{ReachesSets};
ghost use Rattle.determinise.specs.Progress.{AreNodesSoFar, AreReachedSets};

use crate::fault::SubsetLimit;
use crate::known::Known;
use crate::node::node_of;
use crate::table::SetTable;
use containers::{Items, Numbering};
use csp_base::{Made, Stop};
use csp_tables::{NormNode, RawTable};
use std::alloc::Global;
use term_sets::Prepared;

/// The determinised table of a raw table: a node for each set of terms to which a trace from term 0 leads, with the minimal
/// acceptances of the set.
///
/// Nodes are numbered breadth first from the one of the empty trace, events in rising order. Where traces lead to more than
/// 2,048 sets, the answer is `SubsetLimit`.
pub fn determinise(alloc: Global, table: &RawTable) -> Result<SetTable, Stop<SubsetLimit>>
    ensures traces { IfOk result (λ made. FollowsTraces (RawStep table.now) 0 made) }
    ensures sets { IfOk result AreDifferentSets }
    ensures acceptances { IfOk result (λ made. HasAcceptances (RawStep table.now) 0 made.nodes) }
    ensures in_order { IfOk result (λ made. All IsRisingNode made.nodes) }
    ensures breadth_first { IfOk result (λ made. IsBreadthFirst made.nodes) }
    ensures few { IfOk result (λ made. length made.nodes ≤ MOST_SETS) }

    // It succeeds only where no more sets are reached, and the limit is told only where they are.
    ensures within_limit { OnOk result (ReachesSets (RawStep table.now) 0 (MOST_SETS + 1) → ⊥) }
    ensures limit { IfErr result (Tells (λ _. ReachesSets (RawStep table.now) 0 (MOST_SETS + 1))) }
{
    let prepared = Prepared::new(alloc, table)?;
    set_table(alloc, &prepared)
}

// The determinised table of a table that is prepared.
fn set_table(alloc: Global, table: &Prepared<'_>) -> Result<SetTable, Stop<SubsetLimit>>
    ensures traces { IfOk result (λ made. FollowsTraces (RawStep table.now) 0 made) }
    ensures sets { IfOk result AreDifferentSets }
    ensures acceptances { IfOk result (λ made. HasAcceptances (RawStep table.now) 0 made.nodes) }
    ensures in_order { IfOk result (λ made. All IsRisingNode made.nodes) }
    ensures breadth_first { IfOk result (λ made. IsBreadthFirst made.nodes) }
    ensures few { IfOk result (λ made. length made.nodes ≤ MOST_SETS) }
    ensures within_limit { OnOk result (ReachesSets (RawStep table.now) 0 (MOST_SETS + 1) → ⊥) }
    ensures limit { IfErr result (Tells (λ _. ReachesSets (RawStep table.now) 0 (MOST_SETS + 1))) }
{
    let mut sets = first_sets(alloc, table)?;
    let nodes = explore(alloc, table, &mut sets)?;
    Ok(SetTable::new(nodes, sets))
}

// The set of the empty trace alone.
fn first_sets(alloc: Global, table: &Prepared<'_>) -> Made<Numbering<Items<u32>>>
    ensures reached { IfOk result (λ sets. AreReachedSets table.now sets) }
    ensures one { IfOk result (λ sets. length sets ≡ 1) }
{
    let set = table.first_set(alloc)?;
    let mut sets = Numbering::new(alloc);
    sets.number(set)?;
    Ok(sets)
}

// A node for each set. The sets to which events lead are numbered as they are met.
fn explore(
    alloc: Global,
    table: &Prepared<'_>,
    sets: &mut Numbering<Items<u32>>,
) -> Result<Vec<NormNode>, Stop<SubsetLimit>>
    requires reached { AreReachedSets table.now sets.old }
    requires one { length sets.old ≡ 1 }
    ensures nodes { IfOk result (λ nodes. AreNodesSoFar table.now sets.new nodes.items) }
    ensures all { IfOk result (λ nodes. length nodes.items ≡ length sets.new) }
    ensures few { OnOk result (length sets.new ≤ MOST_SETS) }
    ensures reached { AreReachedSets table.now sets.new }
    ensures limit { IfErr result (Tells (λ _. length sets.new ≡ MOST_SETS + 1)) }
{
    let mut known = Known::new(alloc, table)?;
    let mut nodes = Vec::new(alloc);
    while nodes.len() < sets.len() {
        let node = node_of(alloc, table, sets, &mut known, nodes.len())?;
        push_node(&mut nodes, node)?;
    }
    Ok(nodes)
}

// Adds a node at the end.
fn push_node(nodes: &mut Vec<NormNode>, node: NormNode) -> Made<()>
    ensures { OnOk result (nodes.new.items ≡ nodes.old.items ++ node ∷ []) }
{
    nodes.push(node)?;
    Ok(())
}
