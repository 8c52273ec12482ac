//! The stages of a walk, each made from the one before: the network that a script spells, the tables of its components, their parts, and the shape of
//! the network. What makes a stage else tells the fault that is there.
//!
//! Contracts see a stage as the network with what is there, which its invariant joins. Stages are made of at most MOST_COMPONENTS components, so
//! the number of a component always fits its type. A silent height is below the number of its table's terms, since below each height stand all
//! lower ones; so sums of heights fit too.
#![tactic(auto)]

ghost use Rattle.network_stages.specs.Laws.{FaultsExcludeAllTables};

mod bound;
mod busy;
mod chosen;
mod component_tables;
mod links;
mod parts;
mod rows;
mod shapes;
mod spelled;
mod tabled;

pub use busy::check_busy;
pub use chosen::{Chosen, make_part};
pub use component_tables::ComponentTable;
pub use parts::{Parted, make_parts};
pub use shapes::{Shaped, make_shape};
pub use spelled::{Spelled, spell_network};
pub use tabled::{Tabled, make_tables};

/// Where components have tables, no refusal for want of a table is true of them.
pub fn faults_exclude_tables()
    ensures { FaultsExcludeAllTables }
{}
