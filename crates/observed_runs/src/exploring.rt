//! The exploration of a table with an observer.

ghost use Rattle.std.specs.Prelude.{◌<◌, IfOk, OnOk, length};
ghost use Rattle.csp_tables.specs.Form.{HasForm};
ghost use Rattle.observed_runs.specs.Prelude.{AreExplored, AreFollowed, AreFound, Grows, IsExploration, SeesEnough};

use crate::explored::Explored;
use crate::observer::Observer;
use containers::Items;
use csp_base::{Event, Made};
use csp_tables::Part;
use std::alloc::Global;

/// The pairs of a node and a state to which runs of the part's table lead, from its first node and the state 0.
/// The rows are enough of each node's steps for the observer (`steps_of`).
///
/// It takes time in proportion to the pairs and the steps in the rows of their nodes (not proved).
pub fn explore<O: Observer>(
    alloc: Global,
    part: &Part,
    rows: &[Items<(Event, u32)>],
    observer: &O,
) -> Made<Explored>
    requires form { HasForm part.now }
    requires enough { SeesEnough (O.step observer.now) part.now.table rows.now }
    ensures pairs { IfOk result (λ made. IsExploration part.now.table (O.step observer.now) 0 made.pairs) }
    ensures found { IfOk result (λ made. AreFound part.now.table (O.step observer.now) 0 made) }
{
    let mut found = Explored::new(alloc)?;
    let mut place = 0;
    while place < found.len() {
        follow(part, rows, observer, &mut found, place)?;
        place += 1;
    }
    Ok(found)
}

// Lists the pairs to which events lead from the pair in a place.
fn follow<O: Observer>(
    part: &Part,
    rows: &[Items<(Event, u32)>],
    observer: &O,
    found: &mut Explored,
    place: usize,
) -> Made<()>
    requires form { HasForm part.now }
    requires enough { SeesEnough (O.step observer.now) part.now.table rows.now }
    requires place { place < length found.old.pairs }
    requires explored { AreExplored part.now.table (O.step observer.now) found.old }
    ensures explored { OnOk result (AreExplored part.now.table (O.step observer.now) found.new) }
    ensures grows { OnOk result (Grows found.old.pairs found.new.pairs) }
    ensures followed { OnOk result (AreFollowed part.now.table (O.step observer.now) found.new.pairs place) }
{
    let (node, state) = found.pairs()[place];
    for step in rows[node as usize].as_slice() {
        let (event, target) = *step;
        let next = observer.next(state, event);
        found.add((target, next), (place, event))?;
    }
    Ok(())
}
