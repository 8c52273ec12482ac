//! Circles, passed the other way round.

ghost use Rattle.std.specs.Prelude.{◌≡◌, ◌<◌, IfOk, length};
ghost use Rattle.shape_links.specs.Turned.{turned_circle};

use containers::Items;
use csp_base::Made;
use std::alloc::Global;

/// The vertices of the circle in the other direction, from the same one on.
pub fn turn_circle(alloc: Global, circle: &[u32]) -> Made<Items<u32>>
    requires { 0 < length circle.now }
    ensures { IfOk result (λ turned. turned ≡ turned_circle circle.now) }
{
    let mut vertices = Vec::from_slice(alloc, circle)?;
    let last = vertices.len() - 1;
    vertices.reverse();
    vertices.rotate_left(last);
    Ok(Items::from_vec(vertices))
}
