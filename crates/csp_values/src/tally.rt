//! What a list of generators has gathered.

use value_operators::growing::GrowingSet;

/// What a list of generators has gathered.
#[derive(Drop)]
pub struct Tally {
    /// How many bindings there were.
    pub bindings: u32,
    /// What they added.
    pub atoms: GrowingSet,
}
