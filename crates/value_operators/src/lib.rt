//! What the value of an expression is put together from: operators on values, sets that grow, bound names and the numbers of events.
//!
//! A mix of kinds is told before the limit of a set on the same element.
#![tactic(auto)]

pub mod growing;
pub mod names;
pub mod numbers;
pub mod operators;
pub mod sets;

use csp_base::Stop;
use csp_program::ValueKind;

/// Why an expression was not evaluated: want of memory, or the kind of its first fault from the left.
pub type EvalFault = Stop<ValueKind>;

/// What an evaluation gives, unless there is no value or memory runs out.
pub type EvalResult<T> = Result<T, EvalFault>;
