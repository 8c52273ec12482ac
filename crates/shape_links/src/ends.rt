//! The links of each part.

ghost use Rattle.std.specs.Prelude.{◌≡◌, ◌<◌, ◌+◌, ◌++◌, ◌∷◌, ◌||◌, [], ℕ, nat_eq, IfOk, OnOk, length, slice_index_or, if◌then◌else◌};
ghost use Rattle.csp_tables.specs.Shape.{IsWellFormed};
ghost use Rattle.shape_links.specs.Links.{AreEnds};

use containers::{Items, empty_rows, push_at};
use csp_base::Made;
use csp_tables::{Link, Shape};
use std::alloc::Global;

/// For each part its links, in rising order.
pub fn links_of_parts(alloc: Global, shape: &Shape) -> Made<Vec<Items<u32>>>
    requires { IsWellFormed shape.now }
    ensures { IfOk result (λ ends. AreEnds shape.now (length shape.now.links) ends.items) }
{
    let mut ends = empty_rows(alloc, shape.parts().len())?;
    for (l, link) in shape.links().iter().enumerate() {
        add_link(&mut ends, link, l as u32)?;
    }
    Ok(ends)
}

// Adds the number of a link at the end of the lists of its two ends.
fn add_link(ends: &mut Vec<Items<u32>>, link: &Link, number: u32) -> Made<()>
    requires { link.now.right < length ends.old.items }
    ensures count { OnOk result (length ends.new.items ≡ length ends.old.items) }
    ensures each { OnOk result ((i : ℕ) → i < length ends.old.items → slice_index_or ends.new.items i []
        ≡ (if nat_eq link.now.left i || nat_eq link.now.right i then slice_index_or ends.old.items i [] ++ number ∷ []
        else slice_index_or ends.old.items i [])) }
{
    push_at(ends, link.left() as usize, number)?;
    push_at(ends, link.right() as usize, number)?;
    Ok(())
}
