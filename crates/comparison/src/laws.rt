//! What the status of a comparison means.

ghost use Rattle.comparison.specs.Complete.{ComparisonIsExact};

/// The verdict on a network and its specification has the status 0 exactly where they match.
#[tactic(auto, using(crate::proofs::Matching::comparison_is_exact))]
pub fn comparison_is_exact()
    ensures { ComparisonIsExact }
{}
