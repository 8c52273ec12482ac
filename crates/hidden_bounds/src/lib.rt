//! The order in which the components of a network are taken, and the bound on its hidden events.
#![tactic(auto)]

ghost use Rattle.hidden_bounds.specs.Exact.{OwnCirclesAreExact, OwnHeightsAreExact};

mod bounding;
mod ordering;
mod own_graph;
mod own_search;
mod scope;
mod standings;

pub use bounding::{HiddenBound, LoopFault, livelock};
use net_sound::Transitions;
pub use ordering::Placed;

/// The own graph of a component's table over the hidden events that none of the taken components has is that of the component: it has the same height, and
/// a circle in it is one of the component.
pub fn own_graphs_are_exact<S: Transitions>()
    ensures heights { OwnHeightsAreExact S.step }
    ensures circles { OwnCirclesAreExact S.step }
{}
