//! A circle of a digraph, as vertices in the order in which its arcs pass them.

ghost use Rattle.std.specs.Prelude.{◌≡◌, ℕ, ◌<◌, length, slice_index, nat_lt, IfOk};
ghost use Rattle.std.specs.List.{IsFirstBest};
ghost use Rattle.digraph.specs.Turn.{IsTurnedFrom};

use std::alloc::{AllocError, Global};
use std::marker::Model;

/// A circle of a digraph: distinct vertices, each with an arc to the next and the last with an arc to the first.
#[derive(Debug, Drop)]
pub struct Circle {
    members: Vec<u32>,
}

impl Model for Circle {
    ghost use Rattle.std.specs.Prelude.{List, ℕ};

    ghost Value = { List ℕ };

    ghost view = { λ c. c.members.items };
}

impl Circle {
    /// The vertices, in the order in which the arcs pass them.
    pub fn members(&self) -> &[u32]
        ensures { result.now ≡ self.now }
    {
        self.members.as_slice()
    }
}

/// The part of a trail from `first` on, written from its least vertex on.
pub fn circle_from(alloc: Global, trail: &[u32], first: u32) -> Result<Circle, AllocError>
    requires { (k : ℕ) × (k < length trail.now) × (slice_index trail.now k ≡ first) }
    ensures { IfOk result (λ circle. IsTurnedFrom trail.now first circle) }
{
    let from = place_of(trail, first);
    let ring = &trail[from..];
    let least = place_of_least(ring);
    let mut members = ring.to_vec(alloc)?;
    members.rotate_left(least);
    Ok(Circle { members })
}

// Where `first` stands in a trail that has it.
fn place_of(trail: &[u32], first: u32) -> usize
    requires { (k : ℕ) × (k < length trail.now) × (slice_index trail.now k ≡ first) }
    ensures within { result < length trail.now }
    ensures found { slice_index trail.now result ≡ first }
{
    for (k, v) in trail.iter().enumerate() {
        if *v == first {
            return k;
        }
    }
    unreachable!()
}

// The place of the least number.
fn place_of_least(ring: &[u32]) -> usize
    requires { 0 < length ring.now }
    ensures { IsFirstBest nat_lt ring.now (length ring.now) result }
{
    let mut least = 0;
    for k in 1..ring.len() {
        if ring[k] < ring[least] {
            least = k;
        }
    }
    least
}
