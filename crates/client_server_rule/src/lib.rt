//! The rule of clients and servers, decided over the shape of a network: its ranking, or what breaks the rule.
#![tactic(auto)]

mod arcs;
mod rule;

pub use rule::client_server;
