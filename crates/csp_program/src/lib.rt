//! The typed side of the language: expressions, processes, networks and programs, and what each of them means.
#![tactic(auto)]

pub mod copies;
mod exact;
pub mod expressions;
pub mod kinds;
pub mod networks;
pub mod processes;
pub mod programs;

pub use csp_atoms::{Atom, AtomSet, Value};
pub use expressions::{EventPart, Expr, Gen};
pub use kinds::ValueKind;
pub use networks::Net;
pub use processes::{Field, Head, Proc};
pub use programs::{Body, Channel, Content, Def, EventInfo, Program, ResourceNote, RolesNote};
