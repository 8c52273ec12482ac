//! Runs to nodes, whatever is observed.

ghost use Rattle.std.specs.Prelude.{◌≡◌, ◌<◌, ℕ, IfOk, length};
ghost use Rattle.csp_tables.specs.Prelude.{HasForm, IsReached, IsRun, end_of};
ghost use Rattle.observed_runs.specs.Prelude.{AreFound, IsExploration, pair_at};

use crate::explored::Explored;
use crate::exploring::explore;
use crate::observers::Unwatched;
use crate::steps::steps_of;
use csp_base::{EventSet, Made, Trace};
use csp_tables::Part;
use std::alloc::Global;

/// A run of the part's table that leads to the node.
pub fn run_to_node(alloc: Global, part: &Part, node: u32) -> Made<Trace>
    requires form { HasForm part.now }
    requires reached { IsReached part.now.table node }
    ensures follows { IfOk result (λ run. IsRun part.now.table run) }
    ensures leads { IfOk result (λ run. end_of part.now.table 0 run ≡ node) }
{
    let explored = explored_nodes(alloc, part)?;
    let place = node_place(explored.pairs(), node);
    explored.run_to(alloc, place)
}

// The nodes of the part's table to which runs lead.
fn explored_nodes(alloc: Global, part: &Part) -> Made<Explored>
    requires { HasForm part.now }
    ensures pairs { IfOk result (λ made. IsExploration part.now.table (λ state _. state) 0 made.pairs) }
    ensures found { IfOk result (λ made. AreFound part.now.table (λ state _. state) 0 made) }
{
    let events = EventSet::new(alloc);
    let rows = steps_of(alloc, part, &events)?;
    explore(alloc, part, rows.as_slice(), &Unwatched)
}

// The place of a pair with the node.
fn node_place(pairs: &[(u32, u32)], node: u32) -> usize
    requires { (k : ℕ) × (k < length pairs.now) × ((pair_at pairs.now k).0 ≡ node) }
    ensures within { result < length pairs.now }
    ensures found { (pair_at pairs.now result).0 ≡ node }
{
    for (place, (other, _)) in pairs.iter().enumerate() {
        if *other == node {
            return place;
        }
    }
    unreachable!()
}
