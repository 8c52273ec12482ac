//! The table of a component: the terms that it reaches by itself, numbered as they are first seen, and their steps.
//!
//! The components of a program share their terms (`Terms`): what one reached, or was evaluated for it, serves the next. A table keeps numbers, and its
//! terms stand in its contract alone. A room for sizes is below 4,294,967,295, at which the measure of a term stops.
#![tactic(auto)]

ghost use Rattle.local_tables.specs.Laws.{FaultsExcludeTables};

mod exploring;
mod found;
mod local_table;
mod origins;
mod task;
mod terms;

pub use exploring::explore;
pub use local_table::{LocalTable, Room};
pub use task::Task;
pub use terms::Terms;

/// Where a component has a table within the room, no fault is true of it.
pub fn faults_exclude_tables()
    ensures { FaultsExcludeTables }
{}
