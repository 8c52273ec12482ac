//! The normal table of a raw table.

ghost use Rattle.std.specs.Prelude.{◌≡◌, ◌+◌, ◌≤◌, IfErr, IfOk, OnOk, length};
ghost use Rattle.csp_base.specs.Prelude.{Tells};
ghost use Rattle.dl_limits.specs.declared.TheConstants.{MOST_SETS};
ghost use Rattle.csp_tables.specs.Prelude.{RawStep, SilentStep, IsNormalTable};
ghost use Rattle.digraph.specs.Walk.{AreHeights};
ghost use Rattle.determinise.specs.ManySets.{ReachesSets};

use crate::merged::merged_nodes;
use csp_base::Stop;
use csp_tables::{NormTable, RawTable};
use determinise::{SubsetLimit, determinise};
use std::alloc::Global;
use tau_order::Heights;

/// The normal table of a raw table: one node for each class of traces from term 0 with the same future, with exactly the
/// acceptances after these traces. `heights` are the heights of the table, so no run of silent steps is without end.
///
/// Nodes are numbered breadth first from the one of the empty trace, events in rising order; each is reached by a run. The
/// acceptances of a node stand in the order of lists. Where traces lead to more than 2,048 sets of terms, the answer is
/// `SubsetLimit`.
pub fn normalise(
    alloc: Global,
    table: &RawTable,
    heights: &Heights,
) -> Result<NormTable, Stop<SubsetLimit>>
    requires heights { AreHeights (SilentStep (RawStep table.now)) table.now.count heights.now }
    ensures normal { IfOk result (IsNormalTable (RawStep table.now) 0 table.now.count) }
    ensures few { IfOk result (λ made. length made ≤ MOST_SETS) }

    // It succeeds only where no more sets are reached, and the limit is told only where they are.
    ensures within_limit { OnOk result (ReachesSets (RawStep table.now) 0 (MOST_SETS + 1) → ⊥) }
    ensures limit { IfErr result (Tells (λ _. ReachesSets (RawStep table.now) 0 (MOST_SETS + 1))) }
{
    let _count = table.count();
    let sets = determinise(alloc, table)?;
    let made = merged_nodes(alloc, sets.into_nodes())?;
    Ok(made)
}
