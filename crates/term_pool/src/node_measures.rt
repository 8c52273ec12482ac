//! What a node measures, from what its own parts and the processes at its places measure.

ghost use Rattle.std.specs.Prelude.{◌≡◌, ◌<◌, [], ◌∷◌, true, length};
ghost use Rattle.pool_parts.specs.Prelude.{capped, IsLow};
ghost use Rattle.term_pool.specs.Prelude.{entry_layer, Fits, layer_parts, deepest_at, measure_at, node_depth, node_size, own_depth, own_free, own_size, total_at, IsLeastAt, all_below, layer_below};

use crate::entry::Entry;
use crate::own_parts::OwnParts;
use pool_parts::ProcId;
use pool_parts::measure::{Measure, join, leaf, node as node_of};

// What the own parts of the node measure.
fn of_own(parts: &OwnParts, entry: Entry) -> Measure
    requires { Fits parts.now entry }
    ensures depth { result.depth ≡ capped (own_depth (entry_layer parts.now entry)) }
    ensures size { result.size ≡ capped (own_size (entry_layer parts.now entry)) }
    ensures low { IsLow result.least (own_free (entry_layer parts.now entry)) }
{
    match entry {
        Entry::Stop => leaf(),
        Entry::Prefix(head, fields, _) => {
            join(parts.heads.measure(head), parts.fields.measure(fields))
        }
        Entry::Guard(c, _) => parts.exprs.measure(c),
        Entry::If(c, _, _) => parts.exprs.measure(c),
        Entry::External(_) => leaf(),
        Entry::Internal(_) => leaf(),
        Entry::EachExternal(_, set, _) => parts.exprs.measure(set),
        Entry::EachInternal(_, set, _) => parts.exprs.measure(set),
        Entry::Hide(_, set) => parts.exprs.measure(set),
        Entry::Rename(_, pairs, gens) => {
            join(parts.pairs.measure(pairs), parts.gens.measure(gens))
        }
        Entry::Call(_, args) => parts.arguments.measure(args),
        Entry::Skip => leaf(),
        Entry::Seq(_, _) => leaf(),
        Entry::Ended => leaf(),
    }
}

// The measure at a place.
fn at_place(measures: &[Measure], place: ProcId) -> Measure
    requires { place.0 < length measures.now }
    ensures { result ≡ measure_at measures.now place }
{
    measures[place.0]
}

// What is at the places measures together.
fn at_places(measures: &[Measure], ids: &[ProcId]) -> Measure
    requires { all_below (length measures.now) ids.now ≡ true }
    ensures depth { result.depth ≡ deepest_at measures.now ids.now }
    ensures size { result.size ≡ capped (total_at measures.now ids.now) }
    ensures least { IsLeastAt measures.now result.least ids.now }
{
    let mut all = leaf();
    for id in ids {
        all = join(all, at_place(measures, *id));
    }
    all
}

// What is at both places measures together.
fn at_both(measures: &[Measure], left: ProcId, right: ProcId) -> Measure
    requires left { left.0 < length measures.now }
    requires right { right.0 < length measures.now }
    ensures depth { result.depth ≡ deepest_at measures.now (left ∷ right ∷ []) }
    ensures size { result.size ≡ capped (total_at measures.now (left ∷ right ∷ [])) }
    ensures least { IsLeastAt measures.now result.least (left ∷ right ∷ []) }
{
    join(at_place(measures, left), at_place(measures, right))
}

// What is at the places of the node measures together.
fn of_places(parts: &OwnParts, measures: &[Measure], entry: Entry) -> Measure
    requires fits { Fits parts.now entry }
    requires below { layer_below (length measures.now) (entry_layer parts.now entry) ≡ true }
    ensures depth { result.depth ≡ deepest_at measures.now (layer_parts (entry_layer parts.now entry)) }
    ensures size { result.size ≡ capped (total_at measures.now (layer_parts (entry_layer parts.now entry))) }
    ensures least { IsLeastAt measures.now result.least (layer_parts (entry_layer parts.now entry)) }
{
    match entry {
        Entry::Stop => leaf(),
        Entry::Prefix(_, _, p) => at_place(measures, p),
        Entry::Guard(_, p) => at_place(measures, p),
        Entry::If(_, p, q) => at_both(measures, p, q),
        Entry::External(ids) => at_places(measures, parts.choices.get(ids).as_slice()),
        Entry::Internal(ids) => at_places(measures, parts.choices.get(ids).as_slice()),
        Entry::EachExternal(_, _, p) => at_place(measures, p),
        Entry::EachInternal(_, _, p) => at_place(measures, p),
        Entry::Hide(p, _) => at_place(measures, p),
        Entry::Rename(p, _, _) => at_place(measures, p),
        Entry::Call(_, _) => leaf(),
        Entry::Skip => leaf(),
        Entry::Seq(p, q) => at_both(measures, p, q),
        Entry::Ended => leaf(),
    }
}

/// What the node measures, where `measures` are those at its places.
pub(crate) fn of_entry(parts: &OwnParts, measures: &[Measure], entry: Entry) -> Measure
    requires fits { Fits parts.now entry }
    requires below { layer_below (length measures.now) (entry_layer parts.now entry) ≡ true }
    ensures depth { result.depth ≡ node_depth measures.now (entry_layer parts.now entry) }
    ensures size { result.size ≡ node_size measures.now (entry_layer parts.now entry) }
    ensures own { IsLow result.least (own_free (entry_layer parts.now entry)) }
    ensures places { IsLeastAt measures.now result.least (layer_parts (entry_layer parts.now entry)) }
{
    let own = of_own(parts, entry);
    node_of(join(own, of_places(parts, measures, entry)))
}
