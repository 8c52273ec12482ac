//! The network that a program spells: the tree of its components, or the first fault on the way through it.
#![tactic(auto)]

ghost use Rattle.network_trees.specs.Laws.{WalksMakeNetworks};

pub mod fault;

pub use fault::LayoutFault;

/// The walk of a program's network gives a tree exactly where the program spells it.
pub fn walks_make_networks()
    ensures { WalksMakeNetworks }
{}
