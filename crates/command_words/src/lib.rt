//! The words of a command line, and what they ask for.
//!
//! A request holds the name of its script, so that in clauses it is plain data, with one way to write it. A number is one to six digits, with no
//! leading zero.
#![tactic(auto)]

mod laws;
mod numbers;
mod request;
mod words;

pub use laws::words_ask_once;
pub use request::{Job, Request, Trial, read_request};
pub use words::Words;
