//! What the tables of components tell of the components.

ghost use Rattle.conformance.specs.Failing.{FaultsRefute, TablesTell};
ghost use Rattle.conformance.specs.Inherits.{ConformingNetworksAreLive};

use net_sound::Transitions;

/// What is found out about normal tables is true of the components whose tables they are.
#[tactic(auto, using(crate::proofs::Telling::tables_tell))]
pub fn tables_tell_conformance<S: Transitions, O: Transitions>()
    ensures { TablesTell S.step O.step }
{}

/// A component that conforms to its specification has no fault that may be told of it, and none has both.
#[tactic(auto, using(crate::proofs::Telling::faults_refute))]
pub fn faults_refute_conformance<S: Transitions, O: Transitions>()
    ensures { FaultsRefute S.step O.step }
{}

/// A network whose components conform to those of a live network is live, with its own silent bound.
#[tactic(auto, using(crate::proofs::Inheriting::conforming_networks_are_live))]
pub fn conforming_networks_are_live<S: Transitions, O: Transitions>()
    ensures { ConformingNetworksAreLive S.step O.step }
{}
