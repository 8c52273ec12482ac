//! The rule of users and resources, decided over the shape of a network: its ranking, or what breaks the rule.
#![tactic(auto)]

mod holdings;
mod link_sets;
mod nodes;
mod offers;
mod rule;
mod user;
mod users;

pub use rule::resource;
