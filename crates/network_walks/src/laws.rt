//! What a walk of a network says of its runs.

ghost use Rattle.csp_program.specs.declared.programs.Content.{Content};
ghost use Rattle.csp_steps.specs.Order.{AreTargets};
ghost use Rattle.process_steps.specs.ComponentStep.{ProcessStep};
ghost use Rattle.network_walks.specs.Laws.{NoMoveMeansStuck, StuckIsNotLive, StuckWalksRefuteLive, TheWalkIsOne, WalksAreRuns};

/// The moves of a walk of a network are the labels of a run of it. A network has no option exactly where it has no step; and where a walk ends so, the network is
/// live for no bound. A seed and a number of steps fix the walk.
pub fn walks_are_runs()
    ensures runs { (p : Content) → WalksAreRuns (ProcessStep p) (AreTargets p) }
    ensures none { (p : Content) → NoMoveMeansStuck (ProcessStep p) }
    ensures stuck { (p : Content) → StuckIsNotLive (ProcessStep p) }
    ensures refute { (p : Content) → StuckWalksRefuteLive (ProcessStep p) (AreTargets p) }
    ensures one { (p : Content) → TheWalkIsOne (ProcessStep p) (AreTargets p) }
{}
