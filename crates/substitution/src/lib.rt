//! Values in place of bound names in expressions, in processes, and in all that a process holds.
#![tactic(auto)]

mod expressions;
mod fields;
pub mod laws;
mod lookup;
mod processes;
mod values;

pub use expressions::{put_expr, put_exprs};
pub use fields::{any_field_binds, pass_fields, put_fields, put_gens, put_head, put_pairs};
pub use processes::put_proc;
pub use values::Values;
