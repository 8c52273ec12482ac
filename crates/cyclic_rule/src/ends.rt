//! What a circle of links tells: the two components of each link.

ghost use Rattle.std.specs.Prelude.{◌≡◌, ◌<◌, map, IfOk, length};
ghost use Rattle.design_rules.specs.CyclicFaults.{ends_of};
ghost use Rattle.shape_links.specs.Turned.{turned_circle};

use containers::Items;
use csp_base::Made;
use csp_tables::Shape;
use shape_links::turn_circle;
use std::alloc::Global;

// The two components of each link of the circle, passed the other way round.
pub(crate) fn turned_ends(alloc: Global, shape: &Shape, circle: &[u32]) -> Made<Items<(u32, u32)>>
    requires { 0 < length circle.now }
    ensures { IfOk result (λ made. made ≡ map (ends_of shape.now) (turned_circle circle.now)) }
{
    let links = turn_circle(alloc, circle)?;
    all_ends(alloc, shape, links.as_slice())
}

// The two components of each link.
fn all_ends(alloc: Global, shape: &Shape, links: &[u32]) -> Made<Items<(u32, u32)>>
    ensures { IfOk result (λ made. made ≡ map (ends_of shape.now) links.now) }
{
    let mut made = Items::new(alloc);
    for link in links {
        made.push(ends(shape, *link))?;
    }
    Ok(made)
}

// The two components of a link.
fn ends(shape: &Shape, link: u32) -> (u32, u32)
    ensures { result ≡ ends_of shape.now link }
{
    match shape.links().get(link as usize) {
        Some(link) => (link.left(), link.right()),
        None => (0, 0),
    }
}
