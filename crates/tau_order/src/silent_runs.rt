//! How many silent steps follow one another from each term.

ghost use Rattle.std.specs.Prelude.{◌≡◌, ◌-◌, ◌<◌, ℕ, slice_index, IfErr, IfOk, OnOk};
ghost use Rattle.csp_base.specs.Prelude.{Tells};
ghost use Rattle.csp_tables.specs.Prelude.{SilentStep, RawStep};
ghost use Rattle.digraph.specs.Prelude.{AreHeights, HasNoCircle, IsLeastCircle};
ghost use Rattle.tau_order.specs.SilentRows.{AreSilentRows};

use csp_base::{Made, Stop};
use csp_tables::RawTable;
use digraph::{Circle, Heights, Rows, longest_walks};
use std::alloc::Global;

/// For each term of the table the greatest number of silent steps that follow one another from it, or a circle of silent
/// steps, where there is one.
///
/// It takes time linear in the number of terms and silent steps (not proved), and no recursion.
pub fn heights(alloc: Global, table: &RawTable) -> Result<Heights, Stop<Circle>>
    ensures heights { IfOk result (AreHeights (SilentStep (RawStep table.now)) table.now.count) }
    ensures below { IfOk result (λ found. (s : ℕ) → s < table.now.count → slice_index found s < table.now.count) }
    ensures no_circle { OnOk result (HasNoCircle (SilentStep (RawStep table.now))) }
    ensures circle { IfErr result (Tells (IsLeastCircle (SilentStep (RawStep table.now)))) }
{
    let rows = silent_rows(alloc, table)?;
    let found = longest_walks(alloc, &rows)?;
    Ok(found)
}

/// The silent steps as a digraph, whose vertices are the terms.
pub fn silent_rows(alloc: Global, table: &RawTable) -> Made<Rows>
    ensures { IfOk result (λ rows. AreSilentRows table.now rows) }
{
    let mut rows = Rows::new(alloc, table.count())?;
    for (from, to) in table.silent() {
        rows.add_arc(*from, *to)?;
    }
    Ok(rows)
}
