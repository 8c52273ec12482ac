//! The steps of the processes of a pool, computed.
//!
//! Each layer of a process has each of its steps once, where it first stands: doubles that were taken out of the whole list alone would multiply
//! from layer to layer. What is evaluated for a place is kept (`Evaluated`), and stays true where the pool grows. No value is put into the fields
//! of a prefix, so a prefix costs memory by its length. A prefix that begins with inputs without a set, one of which has no value to take, is not
//! walked: nothing is evaluated before that input, so there is no way, whatever stands after it.
#![tactic(auto)]

mod around;
mod choice;
mod entered;
mod evaluated;
mod fields;
mod look;
mod once;
mod operator;
mod prefix;
mod sets;
mod step;
mod steps;
mod walk;

pub use evaluated::Evaluated;
pub use step::StepTo;
pub use steps::steps_in;
