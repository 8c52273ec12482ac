//! What is told of hidden events is all that can be told.

ghost use Rattle.livelock.specs.Complete.{BoundsAreTold, StatusesAreOne, VerdictsAreOne};

/// A bound is told wherever there is one. And all verdicts on a network, asked of one set, have one status; where its components have tables, they are one.
pub fn verdicts_agree()
    ensures told { BoundsAreTold }
    ensures statuses { StatusesAreOne }
    ensures verdicts { VerdictsAreOne }
{}
