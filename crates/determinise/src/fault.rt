//! Why a table has no determinised table.

/// Traces lead to more than 2,048 sets of terms.
#[derive(Drop)]
pub struct SubsetLimit;
