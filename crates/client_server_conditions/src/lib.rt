//! What the rule of clients and servers asks of links and of components: S1 and S2, that the roles part the events and each link
//! has a client, and S3, S4 and S5, on the runs of each component.
#![tactic(auto)]

mod clients;
mod component;
mod conditions;
mod duty;
mod network;
mod nodes;
mod open_links;
mod parted;
mod required;
mod runs;

pub use conditions::RunCondition;
pub use network::Network;
pub use runs::check;
