//! The ranks and the laps of all parts, by what ranks one acceptance and tells the lap of one event.

ghost use Rattle.std.specs.Prelude.{◌<◌, ◌≤◌, ◌≡◌, [], ℕ, ℤ, List, IfOk, length, map, max, pos};
ghost use Rattle.csp_tables.specs.Table.{no_node};
ghost use Rattle.dl_limits.specs.declared.TheConstants.{MOST_COMPONENTS};
ghost use Rattle.rule_rankings.specs.Rows.{AreAllRanked, AreEach, AreLaps, AreRanks, HasLap};

use containers::Items;
use csp_base::{Event, EventSet, Made};
use csp_tables::{NormNode, Part, PartRanks};
use std::alloc::Global;

// What ranks the acceptances of each part, and tells the laps of its events.
pub(crate) trait Ranks {
    /// Whether the part can be ranked.
    ghost can_rank: { Self → ℕ → Type 0 };

    /// The rank of a set of events that the part accepts.
    ghost is_rank: { Self → ℕ → List ℕ → ℤ → Type 0 };

    /// The lap of an event of the part.
    ghost is_lap: { Self → ℕ → ℕ → ℕ → Type 0 };

    // The rank of an acceptance of the part.
    fn rank(&self, part: u32, set: &EventSet) -> i64
        requires { can_rank self.now part }
        ensures { is_rank self.now part set.now result };

    // The lap of an event of the part.
    fn lap(&self, part: u32, event: Event) -> u8
        requires { can_rank self.now part }
        ensures { is_lap self.now part event result };
}

// The ranks and the laps of each part.
pub(crate) fn rank_parts<R: Ranks>(alloc: Global, parts: &[Part], ranks: &R) -> Made<Vec<PartRanks>>
    requires few { length parts.now ≤ MOST_COMPONENTS }
    requires can { (i : ℕ) → i < length parts.now → R.can_rank ranks.now i }
    ensures { IfOk result (λ made. AreAllRanked (R.is_rank ranks.now) (R.is_lap ranks.now) parts.now made.items) }
{
    let mut made = Items::new(alloc);
    for (i, part) in parts.iter().enumerate() {
        made.push_made(rank_part(alloc, part.table().nodes(), ranks, i as u32))?;
    }
    Ok(made.into_vec())
}

// The ranks and the laps of a part with these nodes.
fn rank_part<R: Ranks>(alloc: Global, nodes: &[NormNode], ranks: &R, part: u32) -> Made<PartRanks>
    requires { R.can_rank ranks.now part }
    ensures ranks { IfOk result (λ made. AreRanks (R.is_rank ranks.now part) nodes.now made.ranks) }
    ensures laps { IfOk result (λ made. AreLaps (R.is_lap ranks.now part) nodes.now made.laps) }
{
    let mut rank_rows = Items::new(alloc);
    let mut lap_rows = Items::new(alloc);
    for node in nodes {
        rank_rows.push_made(rank_row(alloc, node.accept(), ranks, part))?;
        lap_rows.push_made(lap_row(alloc, node.next(), ranks, part))?;
    }
    Ok(PartRanks::new(rank_rows.into_vec(), lap_rows.into_vec()))
}

// The ranks of some acceptances.
fn rank_row<R: Ranks>(alloc: Global, accept: &[EventSet], ranks: &R, part: u32) -> Made<Vec<i64>>
    requires { R.can_rank ranks.now part }
    ensures { IfOk result (λ row. AreEach [] (pos 0) (λ _. R.is_rank ranks.now part) accept.now row.items) }
{
    let mut row = Vec::new(alloc);
    for set in accept {
        row.push(ranks.rank(part, set))?;
    }
    Ok(row)
}

// The laps of the events of some steps.
fn lap_row<R: Ranks>(alloc: Global, steps: &[(Event, u32)], ranks: &R, part: u32) -> Made<Vec<u8>>
    requires { R.can_rank ranks.now part }
    ensures { IfOk result (λ row. AreEach (0, 0) 0 (λ _. HasLap (R.is_lap ranks.now part)) steps.now row.items) }
{
    let mut row = Vec::new(alloc);
    for (event, _) in steps {
        row.push(ranks.lap(part, *event))?;
    }
    Ok(row)
}

// The greater of the two.
pub(crate) fn larger(a: u32, b: u32) -> u32
    ensures { result ≡ max a b }
{
    if a < b { b } else { a }
}
