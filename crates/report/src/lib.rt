//! What a command is answered, and the printed report of each answer.
//!
//! The status goes by the outer word of an answer, or of its verdict; so a run that is stuck is a verdict of its own, with the status of what is
//! not proved. A refusal and a fault outside tell of which text they are (`Side`). An answer owns the program whose numbers its verdict speaks of,
//! so events stay numbers up to the report.
#![tactic(auto)]

pub mod answer;
pub mod events;
mod lines;
mod printed;
mod refusals;
pub mod reports;
mod runs;
mod shortfalls;
mod stop;
mod tables;
mod verdicts;

pub use answer::{Answer, Done, OutsideFault, Refusal, Shortfall, Side, Site, TextFault, Verdict};
pub use events::event_text;
pub use printed::rule_name;
pub use reports::{report_of, status_of};
pub use stop::{Halt, conclude, refuse, settle};
