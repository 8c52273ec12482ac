//! Why a set of atoms could not be made.

/// Atoms of two kinds cannot be in one set.
#[derive(Drop)]
pub struct MixedKinds;
