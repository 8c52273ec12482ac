//! The steps of each part that an observer of links has to follow.

ghost use Rattle.std.specs.Prelude.{IfOk, length};
ghost use Rattle.csp_tables.specs.Shape.{IsWellFormed};
ghost use Rattle.shape_links.specs.Links.{AreSteps};

use containers::Items;
use csp_base::{Event, Made};
use csp_tables::Shape;
use observed_runs::steps_of;
use std::alloc::Global;

// For each part, and for each of its nodes, the steps that an observer of shared events has to follow.
pub(crate) fn steps_of_parts(alloc: Global, shape: &Shape) -> Made<Vec<Items<Items<(Event, u32)>>>>
    requires { IsWellFormed shape.now }
    ensures { IfOk result (λ steps. AreSteps shape.now (length shape.now.parts) steps.items) }
{
    let mut steps = Vec::new(alloc);
    for part in shape.parts() {
        let rows = steps_of(alloc, part, shape.vocabulary())?;
        steps.push(rows)?;
    }
    Ok(steps)
}
