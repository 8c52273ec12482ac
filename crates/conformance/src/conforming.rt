//! Whether the table of a component conforms to that of its specification.

ghost use Rattle.std.specs.Prelude.{◌≡◌, ◌<◌, ℕ, IfErr, IfNone, IfOk, IfSome, MatchBool, OnOk, length};
ghost use Rattle.std.specs.Bool.{OnFalse, OnTrue};
ghost use Rattle.csp_base.specs.Stops.{Tells};
ghost use Rattle.csp_tables.specs.Form.{HasForm};
ghost use Rattle.observed_runs.specs.Prelude.{AreFound, IsExploration, pair_at};
ghost use Rattle.conformance.specs.Conforming.{TableConforms};
ghost use Rattle.conformance.specs.Finding.{AcceptsAt, AllAccept, AreInside, IsFirstOutside, RefusesAt};
ghost use Rattle.conformance.specs.Following.{follow_step};
ghost use Rattle.conformance.specs.Told.{Fails};

use crate::alike::{alike_nodes, alike_number};
use crate::fault::ConformFault;
use crate::follower::Follower;
use crate::nodes::node_of;
use crate::steps::refuses;
use csp_base::{Made, Stop};
use csp_tables::Part;
use observed_runs::{Explored, Pairs, explore, steps_of};
use std::alloc::Global;

// Succeeds where each run of `part` is one of `specified`, and after it each acceptance of the first contains one of the second.
pub(crate) fn conform(
    alloc: Global,
    part: &Part,
    specified: &Part,
) -> Result<(), Stop<ConformFault>>
    requires form { HasForm part.now }
    requires specified_form { HasForm specified.now }
    ensures conforms { OnOk result (TableConforms part.now.table specified.now.table) }
    ensures told { IfErr result (Tells (Fails part.now.table specified.now.table)) }
{
    let explored = explore_both(alloc, part, specified)?;
    let pairs = explored.pairs();
    if let Some(place) = outside_place(specified, pairs) {
        let (earlier, event) = explored.origin(place);
        let mut trace = explored.run_to(alloc, earlier)?;
        trace.push(event)?;
        return Err(Stop::Told(ConformFault::Outside { trace }));
    }
    if let Some(place) = refusing_place(alloc, part, specified, pairs)? {
        let trace = explored.run_to(alloc, place)?;
        return Err(Stop::Told(ConformFault::Refuses { trace }));
    }
    Ok(())
}

// The pairs of nodes to which runs of the part lead, in its table and in that of its specification.
fn explore_both(alloc: Global, part: &Part, specified: &Part) -> Made<Explored>
    requires form { HasForm part.now }
    requires specified_form { HasForm specified.now }
    ensures pairs { IfOk result (λ made. IsExploration part.now.table
        (follow_step part.now.alphabet specified.now.table) 0 made.pairs) }
    ensures found { IfOk result (λ made. AreFound part.now.table
        (follow_step part.now.alphabet specified.now.table) 0 made) }
{
    let rows = steps_of(alloc, part, part.alphabet())?;
    let follower = Follower::new(part.alphabet(), specified);
    explore(alloc, part, rows.as_slice(), &follower)
}

// The place of the first pair that is past the end of the specification.
fn outside_place(specified: &Part, pairs: &[(u32, u32)]) -> Option<usize>
    ensures outside { IfSome result (IsFirstOutside specified.now.table pairs.now) }
    ensures none { IfNone result (AreInside specified.now.table pairs.now (length pairs.now)) }
{
    let count = specified.table().len();
    for place in 0..pairs.len() {
        if pairs[place].1 as usize >= count {
            return Some(place);
        }
    }
    None
}

// The place of the first pair whose first node has an acceptance that contains none of the second, if it has a second.
fn refusing_place(
    alloc: Global,
    part: &Part,
    specified: &Part,
    pairs: &[(u32, u32)],
) -> Made<Option<usize>>
    ensures within { IfOk result (λ found. IfSome found (λ k. k < length pairs.now)) }
    ensures refuses { IfOk result (λ found. IfSome found
        (λ k. RefusesAt part.now.table specified.now.table (pair_at pairs.now k))) }
    ensures none { IfOk result (λ found. IfNone found
        (AllAccept part.now.table specified.now.table pairs.now (length pairs.now))) }
{
    let lefts = alike_nodes(alloc, part)?;
    let rights = alike_nodes(alloc, specified)?;
    let mut accepted = Pairs::new(alloc);
    for place in 0..pairs.len() {
        let (left, right) = pairs[place];
        let pair = (alike_number(&lefts, left), alike_number(&rights, right));
        if refuses_newly(part, specified, &mut accepted, pair)? {
            return Ok(Some(place));
        }
    }
    Ok(None)
}

// Whether the pair is none of those that accept, and refuses. If not, it is one of these then.
fn refuses_newly(
    part: &Part,
    specified: &Part,
    accepted: &mut Pairs,
    pair: (u32, u32),
) -> Made<bool>
    requires { AllAccept part.now.table specified.now.table accepted.old (length accepted.old) }
    ensures refuses { IfOk result (λ refuses. OnTrue refuses (RefusesAt part.now.table specified.now.table pair)) }
    ensures accepts { IfOk result (λ refuses. OnFalse refuses (AcceptsAt part.now.table specified.now.table pair)) }
    ensures accepted { IfOk result (λ refuses. OnFalse refuses
        (AllAccept part.now.table specified.now.table accepted.new (length accepted.new))) }
{
    if !accepted.insert(pair)? {
        return Ok(false);
    }
    Ok(refuses_at(part, specified, pair))
}

// Whether an acceptance of the pair's first node contains none of its second, if it has a second.
fn refuses_at(part: &Part, specified: &Part, pair: (u32, u32)) -> bool
    ensures { MatchBool result (RefusesAt part.now.table specified.now.table pair)
        (AcceptsAt part.now.table specified.now.table pair) }
{
    let Some(node) = node_of(part, pair.0) else {
        return false;
    };
    let Some(other) = node_of(specified, pair.1) else {
        return false;
    };
    refuses(node.accept(), other.accept())
}
