//! The rankings of the three rules: for each acceptance of a component its rank, and for each event whether it ends a lap.
#![tactic(auto)]

mod client_server;
mod cyclic;
mod resource;
mod rows;

pub use client_server::client_server_ranking;
pub use cyclic::cyclic_ranking;
pub use resource::resource_ranking;
