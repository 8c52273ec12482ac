//! The steps of a process over a program, as a relation and as a list, and the law that joins the two.
#![tactic(auto)]

ghost use Rattle.process_steps.specs.Laws.{ListsAreOfLayers, ListsAreSteps, ListsAreThere};

pub mod component_fault;
pub mod label;

pub use component_fault::ComponentFault;
pub use label::Label;

/// A process has a list of steps exactly where it lacks no value, and the list is then exactly its steps. It is that of the process's layer over the
/// lists of the processes below.
#[tactic(auto, using(crate::proofs::Depths::of_layer, crate::proofs::Listed::lists_are, crate::proofs::Listed::lists_are_there))]
pub fn lists_are_steps()
    ensures there { ListsAreThere }
    ensures steps { ListsAreSteps }
    ensures layers { ListsAreOfLayers }
{}
