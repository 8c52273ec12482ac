//! A component along the places of its lap.

ghost use Rattle.std.specs.Prelude.{◌≡◌, ◌<◌, IfOk};
ghost use Rattle.design_rules.specs.Prelude.{links_of};
ghost use Rattle.cyclic_conditions.specs.Laps.{AreLaps};

use csp_base::Made;
use observed_runs::{Explored, Lap};
use shape_links::Component;
use std::alloc::Global;

// A component that has links, with the pairs of a node and a place of its lap to which its runs lead.
#[derive(Drop)]
pub(crate) struct Laps<'a> {
    pub(crate) component: Component<'a>,
    pub(crate) explored: Explored,
}

impl<'a> Laps<'a> {
    // The laps of a component that has links.
    pub(crate) fn new(alloc: Global, component: &Component<'a>) -> Made<Laps<'a>>
        requires { 0 < links_of component.now.shape.now component.now.number }
        ensures laps { IfOk result AreLaps }
        ensures component { IfOk result (λ laps. laps.component ≡ component.now) }
    {
        let shape = component.shape.shape();
        let _links = shape.links();
        let lap = Lap::new(shape.vocabulary(), component.links().len() as u32);
        let explored = component.explore(alloc, &lap)?;
        Ok(Laps {
            component: *component,
            explored,
        })
    }
}
