//! The depths of definitions with all of their uses expanded, as far as a limit: in rounds, each use one level further.

ghost use Rattle.std.specs.Prelude.{◌≡◌, ◌+◌, ◌↔◌, min, map, slice_index, IsTrue, IfOk};
ghost use Rattle.name_faults.specs.Depths.{AreWithin, deepest_of};

use crate::body::{Body, greater};
use csp_base::Made;
use std::alloc::Global;

/// The depth of each definition as far as the limit, with as many uses entered, one inside another, as it says.
pub(crate) fn depths_of(alloc: Global, bodies: &[Body], limit: u32) -> Made<Vec<u32>>
    ensures { IfOk result (λ depths. AreWithin limit limit bodies.now depths.items) }
{
    let mut depths = Vec::new(alloc);
    for _round in 0..limit {
        let next = next_round(alloc, bodies, depths.as_slice(), limit)?;
        if are_same(next.as_slice(), depths.as_slice()) {
            return Ok(depths);
        }
        depths = next;
    }
    Ok(depths)
}

// Whether two lists of depths are the same.
fn are_same(a: &[u32], b: &[u32]) -> bool
    ensures { IsTrue result ↔ (a.now ≡ b.now) }
{
    a == b
}

// The depths with one use more that may be entered.
fn next_round(alloc: Global, bodies: &[Body], depths: &[u32], limit: u32) -> Made<Vec<u32>>
    ensures { IfOk result (λ next.
        next.items ≡ map (λ body. min (deepest_of (λ d. slice_index depths.now d) body) limit) bodies.now) }
{
    let mut next = Vec::new(alloc);
    for body in bodies {
        next.push(depth_of(body, depths, limit))?;
    }
    Ok(next)
}

// The depth of a body where what it uses has these depths.
fn depth_of(body: &Body, depths: &[u32], limit: u32) -> u32
    ensures { result ≡ min (deepest_of (λ d. slice_index depths.now d) body.now) limit }
{
    let mut deepest = cap(body.level, limit);
    for (d, level) in body.uses.as_slice() {
        deepest = greater(deepest, use_depth(depths, *d, *level, limit));
    }
    deepest
}

// How deep the use of a definition reaches.
fn use_depth(depths: &[u32], d: u32, level: u32, limit: u32) -> u32
    ensures { result ≡ min (level + slice_index depths.now d) limit }
{
    match depths.get(d as usize) {
        Some(depth) => cap(level.saturating_add(*depth), limit),
        None => cap(level, limit),
    }
}

// A depth as far as it is counted.
fn cap(depth: u32, limit: u32) -> u32
    ensures { result ≡ min depth limit }
{
    if depth < limit { depth } else { limit }
}
