//! One run of a network, step by step: which options each state has, and which of them a number chooses. And what such a walk says of the network.
//!
//! One sequence of numbers chooses among the options of a state. A second one chooses among the processes to which a component can go by that
//! option. It begins at 999,999,999 less the seed, so that its choices are not those of the first; a component with one such process draws no
//! number. The order of processes is that of the list of steps, which tables keep. So a seed and a number of steps fix the run. That each branch is
//! taken under some seed is not claimed.
#![tactic(auto)]

mod laws;
mod movers;
mod walking;

pub use laws::walks_are_runs;
pub use walking::walk_network;
