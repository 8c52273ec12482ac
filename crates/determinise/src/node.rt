//! The node of a set of terms.

ghost use Rattle.std.specs.Prelude.{◌≡◌, ◌+◌, ◌<◌, ◌≤◌, IfErr, IfOk, OnOk, length};
ghost use Rattle.csp_base.specs.Prelude.{Tells};
ghost use Rattle.dl_limits.specs.declared.TheConstants.{MOST_SETS};
ghost use Rattle.csp_tables.specs.BreadthFirst.{MeetsInOrder, targets_of_steps};
ghost use Rattle.determinise.specs.Known.{IsReady};
ghost use Rattle.determinise.specs.Progress.{AreMoreSets, AreStepsOf, IsNodeOf, IsReachedFromSet, set_at};
ghost use Rattle.term_sets.specs.TermSets.{AreMinimalOffers, IsTermSet};

use crate::fault::SubsetLimit;
use crate::known::Known;
use crate::sets::next_steps;
use containers::{Items, Numbering};
use csp_base::{Event, EventSet, Made, Stop};
use csp_tables::NormNode;
use std::alloc::Global;
use term_sets::Prepared;

// The node of the set in a place. The sets to which its events lead are numbered where they have no number yet.
pub(crate) fn node_of(
    alloc: Global,
    table: &Prepared<'_>,
    sets: &mut Numbering<Items<u32>>,
    known: &mut Known,
    place: usize,
) -> Result<NormNode, Stop<SubsetLimit>>
    requires place { place < length sets.old }
    requires form { IsTermSet table.now (set_at sets.old place) }
    requires few { length sets.old ≤ MOST_SETS }
    requires ready { IsReady table.now sets.old known.old }
    ensures node { IfOk result (λ node. IsNodeOf table.now sets.new (set_at sets.old place) node) }
    ensures order { IfOk result (λ node. MeetsInOrder (length sets.old) (targets_of_steps node.next)
        (length sets.new)) }
    ensures more { AreMoreSets (IsReachedFromSet table.now (set_at sets.old place)) sets.old sets.new }
    ensures few { OnOk result (length sets.new ≤ MOST_SETS) }
    ensures ready { OnOk result (IsReady table.now sets.new known.new) }
    ensures limit { IfErr result (Tells (λ _. length sets.new ≡ MOST_SETS + 1)) }
{
    let accept = accept_at(alloc, table, sets, place)?;
    let next = next_at(alloc, table, sets, known, place)?;
    Ok(NormNode::new(next, accept))
}

// The minimal acceptances of the set in a place.
fn accept_at(
    alloc: Global,
    table: &Prepared<'_>,
    sets: &Numbering<Items<u32>>,
    place: usize,
) -> Made<Vec<EventSet>>
    requires place { place < length sets.now }
    requires form { IsTermSet table.now (set_at sets.now place) }
    ensures { IfOk result (λ accept. AreMinimalOffers table.now (set_at sets.now place) accept.items) }
{
    let terms = sets.as_slice()[place].as_slice();
    let accept = table.acceptances(alloc, terms)?;
    Ok(accept)
}

// The steps of the node of the set in a place. The sets to which they lead are numbered where they have no number yet.
fn next_at(
    alloc: Global,
    table: &Prepared<'_>,
    sets: &mut Numbering<Items<u32>>,
    known: &mut Known,
    place: usize,
) -> Result<Vec<(Event, u32)>, Stop<SubsetLimit>>
    requires place { place < length sets.old }
    requires form { IsTermSet table.now (set_at sets.old place) }
    requires few { length sets.old ≤ MOST_SETS }
    requires ready { IsReady table.now sets.old known.old }
    ensures steps { IfOk result (λ next. AreStepsOf table.now sets.new (set_at sets.old place) next.items) }
    ensures order { IfOk result (λ next. MeetsInOrder (length sets.old) (targets_of_steps next.items)
        (length sets.new)) }
    ensures more { AreMoreSets (IsReachedFromSet table.now (set_at sets.old place)) sets.old sets.new }
    ensures few { OnOk result (length sets.new ≤ MOST_SETS) }
    ensures ready { OnOk result (IsReady table.now sets.new known.new) }
    ensures limit { IfErr result (Tells (λ _. length sets.new ≡ MOST_SETS + 1)) }
{
    let terms = sets.as_slice()[place].as_slice();
    let moves = table.moves(alloc, terms)?;
    next_steps(alloc, table, &moves, sets, known)
}
