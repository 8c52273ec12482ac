//! The value of an expression of a program, or the first fault that its evaluation meets.
//!
//! The value of an expression is defined for every content of a program. So `eval_in` evaluates the types of channels while the program is put
//! together. Generators are walked by a loop, with a frame for each that is entered and one list of bound names.
#![tactic(auto)]

mod evaluation;
mod fitting;
mod reads;
mod tally;
mod walk;
mod whole;

pub use value_operators::{EvalFault, EvalResult};
pub use walk::Walk;
pub use whole::{
    binding_under, eval, eval_all_under, eval_all_with, eval_in, eval_set, eval_under, eval_with,
    front_under,
};
