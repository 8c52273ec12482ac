//! How much a script holds: its names, the parts of its declarations, and the binding tokens of its trees.
#![tactic(auto)]
