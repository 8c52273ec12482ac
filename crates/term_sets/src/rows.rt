//! The steps by events, term by term.

ghost use Rattle.std.specs.Prelude.{◌≡◌, ◌<◌, ◌++◌, [], All, IfOk, OnOk, length, replicate, slice_index_or};
ghost use Rattle.std.specs.List.{flat_map};
ghost use Rattle.term_sets.specs.Moves.{AreMoveRows};

use containers::{Items, empty_rows, push_at};
use csp_base::{Event, Made};
use csp_tables::RawTable;
use std::alloc::Global;

// For each term the list of its steps.
pub(crate) fn move_rows(alloc: Global, table: &RawTable) -> Made<Vec<Items<(Event, u32)>>>
    ensures { IfOk result (λ rows. AreMoveRows table.now rows.items) }
{
    let mut rows = empty_rows(alloc, table.count() as usize)?;
    add_steps(&mut rows, table)?;
    Ok(rows)
}

// Adds each step of the table to the list of the term from which it leads. The lists are empty before.
fn add_steps(rows: &mut Vec<Items<(Event, u32)>>, table: &RawTable) -> Made<()>
    requires { rows.old.items ≡ replicate table.now.count [] }
    ensures { OnOk result (AreMoveRows table.now rows.new.items) }
{
    for (from, event, to) in table.steps() {
        push_at(rows, *from as usize, (*event, *to))?;
    }
    Ok(())
}

// The steps of some terms, one list after another.
pub(crate) fn moves_of(
    alloc: Global,
    rows: &[Items<(Event, u32)>],
    terms: &[u32],
) -> Made<Vec<(Event, u32)>>
    requires { All (λ n. n < length rows.now) terms.now }
    ensures { IfOk result (λ moves. moves.items ≡ flat_map (λ n. slice_index_or rows.now n []) terms.now) }
{
    let mut moves = Vec::new(alloc);
    for n in terms {
        moves.extend_from_slice(rows[*n as usize].as_slice())?;
    }
    Ok(moves)
}
