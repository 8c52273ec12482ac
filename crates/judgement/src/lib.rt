//! The judgement of a network by a rule: through the tables of its components and its shape to the verdict.
//!
//! The judgement answers that a network is free of deadlock by what `conclude` returns: the theorem about rankings is a call that it makes.
//! Counts of the report fit their types in every network within the limits, which is proved.
#![tactic(auto)]

mod conclusion;
mod counts;
mod deciding;
mod free;
mod judging;
mod laws;
mod rules;

pub use conclusion::{Proved, conclude, conclude_stages};
pub use judging::judge_by;
pub use laws::each_script_has_one_network;
