//! Nodes with the same acceptances.

ghost use Rattle.std.specs.Prelude.{◌≡◌, IfOk, IsTrue, get_or};
ghost use Rattle.conformance.specs.Alike.{AreAlike, IsAlike};

use crate::nodes::node_of;
use csp_base::{EventSet, Made};
use csp_tables::Part;
use std::alloc::Global;
use std::collections::HashMap;
use std::hash::{FoldHasher, Hash, Hasher};

// For each node one with the same acceptances, mostly the first of these.
pub(crate) fn alike_nodes(alloc: Global, part: &Part) -> Made<Vec<u32>>
    ensures { IfOk result (λ firsts. AreAlike part.now.table firsts.items) }
{
    let mut known = HashMap::new(alloc);
    let mut firsts = Vec::new(alloc);
    for number in 0..part.table().len() as u32 {
        let first = alike_node(part, &mut known, number)?;
        firsts.push(first)?;
    }
    Ok(firsts)
}

// A node with the same acceptances: the one that is known by their hash, or else the node itself, which is known then.
fn alike_node(part: &Part, known: &mut HashMap<u64, u32>, number: u32) -> Made<u32>
    ensures { IfOk result (λ first. IsAlike part.now.table first number) }
{
    let Some(node) = node_of(part, number) else {
        return Ok(number);
    };
    let hash = hash_of(node.accept());
    match known.get(&hash) {
        Some(first) if is_alike(part, *first, number) => Ok(*first),
        _ => {
            known.insert(hash, number)?;
            Ok(number)
        }
    }
}

// The hash of the sets.
fn hash_of(sets: &[EventSet]) -> u64 {
    let mut hasher = FoldHasher::default();
    sets.hash(&mut hasher);
    hasher.finish()
}

// Whether both are nodes, with the same acceptances.
fn is_alike(part: &Part, first: u32, number: u32) -> bool
    ensures { IsTrue result → IsAlike part.now.table first number }
{
    let Some(node) = node_of(part, first) else {
        return false;
    };
    let Some(other) = node_of(part, number) else {
        return false;
    };
    node.accept() == other.accept()
}

// What stands at the number, or else itself.
pub(crate) fn alike_number(firsts: &[u32], number: u32) -> u32
    ensures { result ≡ get_or firsts.now number number }
{
    match firsts.get(number as usize) {
        Some(first) => *first,
        None => number,
    }
}
