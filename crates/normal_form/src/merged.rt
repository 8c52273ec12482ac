//! The nodes of a table merged by equal future.

ghost use Rattle.std.specs.Prelude.{◌≡◌, ◌<◌, ◌≤◌, ℕ, IfOk, length, slice_index};
ghost use Rattle.std.specs.Bool.{OnTrue};
ghost use Rattle.dl_limits.specs.declared.TheConstants.{MOST_SETS};
ghost use Rattle.equal_futures.specs.Future.{NodesRise};
ghost use Rattle.normal_form.specs.Merged.{IsMergedTable};

use crate::marks::accept_marks;
use crate::merge::merge;
use csp_base::Made;
use csp_tables::{NormNode, NormTable};
use equal_futures::refine;
use std::alloc::Global;

// One node for each class of nodes with equal future. Where no two nodes have the same acceptances, each is its own class.
pub(crate) fn merged_nodes(alloc: Global, nodes: Vec<NormNode>) -> Made<NormTable>
    requires rising { NodesRise nodes.items }
    requires few { length nodes.items ≤ MOST_SETS }
    ensures { IfOk result (λ merged. IsMergedTable nodes.items merged) }
{
    let marks = accept_marks(alloc, &nodes)?;
    if are_places(&marks) {
        return Ok(NormTable::from_nodes(nodes));
    }
    let classes = refine(alloc, &nodes, &marks)?;
    let merged = merge(alloc, &nodes, &classes)?;
    Ok(NormTable::from_nodes(merged))
}

// Whether each number is its own place, so that no two are equal.
fn are_places(numbers: &[u32]) -> bool
    ensures { OnTrue result ((i : ℕ) → i < length numbers.now → slice_index numbers.now i ≡ i) }
{
    for (place, number) in numbers.iter().enumerate() {
        if *number as usize != place {
            return false;
        }
    }
    true
}
