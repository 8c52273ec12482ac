//! The nodes of a pool: entries, their own parts, and what each measures.

ghost use Rattle.std.specs.Prelude.{◌≡◌, ◌<◌, true, length, OnErr};
ghost use Rattle.csp_program.specs.Substitution.{given_by, proc_with};
ghost use Rattle.term_pool.specs.Prelude.{entry_layer, Fits, with_first, entry_tree, trees_in, AreKept, Puts, Measures, Has, StandAt, layer_below, places_below, tree_at, tree_of};
ghost use Rattle.term_pool.specs.Pooled as pooled;

use crate::changed::{entry_with_first, made_entry};
use crate::entry::Entry;
use crate::node::Node;
use crate::node_measures::of_entry;
use crate::own_parts::{OwnParts, keep_node, parts_once};
use containers::{Items, Numbering, QuickKey};
use csp_base::{Made, NoMemory};
use pool_parts::{Measure, ProcId};
use substitution::Values;

/// The nodes of a pool.
#[derive(Drop)]
pub(crate) struct Nodes {
    /// Their own parts.
    pub parts: OwnParts,
    /// The entry of each.
    pub entries: Numbering<Entry, QuickKey>,
    /// What each measures.
    pub measures: Items<Measure>,
}

/// The entry at a place.
pub(crate) fn entry_at(nodes: &Nodes, id: ProcId) -> Entry
    requires kept { AreKept nodes.now }
    requires within { id.0 < length (trees_in nodes.now) }
    ensures fits { Fits nodes.now.parts result }
    ensures below { layer_below id.0 (entry_layer nodes.now.parts result) ≡ true }
    ensures process { entry_tree nodes.now result ≡ tree_at (trees_in nodes.now) id }
{
    nodes.entries.as_slice()[id.0]
}

/// What the process at a place measures.
pub(crate) fn measure_at(nodes: &Nodes, id: ProcId) -> Measure
    requires kept { AreKept nodes.now }
    requires within { id.0 < length (trees_in nodes.now) }
    ensures { Measures (tree_at (trees_in nodes.now) id) result }
{
    nodes.measures.as_slice()[id.0]
}

// The place of an entry, which is the next one where it is new. Where there is no memory for its measure, it is taken out again.
fn put_entry(nodes: &mut Nodes, entry: Entry) -> Made<ProcId>
    requires kept { AreKept nodes.old }
    requires fits { Fits nodes.old.parts entry }
    requires below { layer_below (length (trees_in nodes.old)) (entry_layer nodes.old.parts entry) ≡ true }
    ensures kept { AreKept nodes.new }
    ensures puts { Puts (trees_in nodes.old) (trees_in nodes.new) result (entry_tree nodes.old entry) }
    ensures err_only_new { OnErr result (Has (trees_in nodes.old) (entry_tree nodes.old entry) → ⊥) }
{
    let (place, new) = nodes.entries.insert_full(entry)?;
    if !new {
        return Ok(ProcId(place));
    }
    let measure = of_entry(&nodes.parts, nodes.measures.as_slice(), entry);
    match nodes.measures.push(measure) {
        Ok(()) => Ok(ProcId(place)),
        Err(_) => {
            let _ = nodes.entries.pop();
            Err(NoMemory)
        }
    }
}

/// The place of the process that the node is.
pub(crate) fn put_in(nodes: &mut Nodes, node: Node<'_>) -> Made<ProcId>
    requires kept { AreKept nodes.old }
    requires below { places_below (length (trees_in nodes.old)) node ≡ true }
    ensures kept { AreKept nodes.new }
    ensures puts { Puts (trees_in nodes.old) (trees_in nodes.new) result (tree_of (trees_in nodes.old) node.entry) }
    ensures err_only_new { OnErr result (Has (trees_in nodes.old) (tree_of (trees_in nodes.old) node.entry) → ⊥) }
{
    let kept = keep_node(&mut nodes.parts, node);
    parts_once(&nodes.parts);
    let entry = kept?;
    put_entry(nodes, entry)
}

/// The place of the process at `id` with that at `below` in place of its first sub-process.
pub(crate) fn put_first_in(nodes: &mut Nodes, id: ProcId, below: ProcId) -> Made<ProcId>
    requires kept { AreKept nodes.old }
    requires id { id.0 < length (trees_in nodes.old) }
    requires below { below.0 < length (trees_in nodes.old) }
    ensures kept { AreKept nodes.new }
    ensures puts { Puts (trees_in nodes.old) (trees_in nodes.new) result
        (with_first (tree_at (trees_in nodes.old) id) (tree_at (trees_in nodes.old) below)) }
{
    let entry = entry_at(nodes, id);
    let made = entry_with_first(&mut nodes.parts, entry, below);
    parts_once(&nodes.parts);
    let entry = made?;
    put_entry(nodes, entry)
}

/// The place of what the process at `id` becomes with the values in place of the names, where `ids` are the places of what its sub-processes become.
pub(crate) fn put_made_in(
    nodes: &mut Nodes,
    id: ProcId,
    ids: &Items<ProcId>,
    values: &Values<'_>,
) -> Made<ProcId>
    requires kept { AreKept nodes.old }
    requires within { id.0 < length (trees_in nodes.old) }
    requires made { StandAt (trees_in nodes.old) ids.now
        (pooled.parts (proc_with (given_by values.now) (tree_at (trees_in nodes.old) id))) }
    ensures kept { AreKept nodes.new }
    ensures puts { Puts (trees_in nodes.old) (trees_in nodes.new) result
        (proc_with (given_by values.now) (tree_at (trees_in nodes.old) id)) }
{
    let entry = entry_at(nodes, id);
    let made = made_entry(&mut nodes.parts, entry, ids, values);
    parts_once(&nodes.parts);
    let entry = made?;
    put_entry(nodes, entry)
}
