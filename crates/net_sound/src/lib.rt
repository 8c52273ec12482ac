//! The theorem behind each answer "deadlock-free", over any step relation: ranks that fall leave no stuck state.
#![tactic(auto)]

ghost use Rattle.csp_tables.specs.Prelude.{Label, ShapesAreBusy};
ghost use Rattle.net_sound.specs.Flattening.{TreeStepsAreFlat, FlatStepsAreTreeSteps, StepsAreToldByLeaves, StepsKeepNesting, StepsKeepAlphabets};
ghost use Rattle.net_sound.specs.Heart.{GoodRankingsMeanLive};
ghost use Rattle.net_sound.specs.Heights.{HeightsAreExact, HeightsAddUp};
ghost use Rattle.net_sound.specs.Example.{ExampleIsLive, ExampleIsStuck};
ghost use Rattle.net_sound.specs.NoneStuck.{NoneIsStuck};
ghost use Rattle.net_sound.specs.Normal.{NormalTablesCarryOver, NormalTablesBehave, ShapesBehave, ShapesAreWellFormed};
ghost use Rattle.net_sound.specs.Projection.{RunsAreTraces, RunsAreJoint, SilenceIsBounded};

/// A labelled transition system: the values of a type are its states.
pub trait Transitions {
    /// Whether the first state has a step with this label to the second.
    ghost step: { Self → Label → Self → Type 0 };
}

/// In a well-nested tree the flat steps over the leaves are exactly the tree's steps, and a step keeps the nesting.
pub fn nesting_does_not_matter<S: Transitions>()
    ensures forth { TreeStepsAreFlat S.step }
    ensures back { FlatStepsAreTreeSteps S.step }
    ensures told { StepsAreToldByLeaves S.step }
    ensures nested { StepsKeepNesting S.step }
    ensures alphabets { StepsKeepAlphabets S.step }
{}

/// A run of the network is a trace of each component, and a joint run of any two tables with the components' behaviour.
pub fn runs_are_local<S: Transitions>()
    ensures traces { RunsAreTraces S.step }
    ensures joint { RunsAreJoint S.step }
{}

/// Silent steps in a row in the network are at most the sum of the components' greatest numbers.
pub fn silence_is_bounded<S: Transitions>()
    ensures { SilenceIsBounded S.step }
{}

/// The greatest silent height of a component's numbered table is the component's greatest number of silent steps.
pub fn heights_are_exact<S: Transitions>()
    ensures each { HeightsAreExact S.step }
    ensures sum { HeightsAddUp S.step }
{}

/// The normal table of a component's numbered table is the component's.
pub fn normal_tables_carry_over<S: Transitions>()
    ensures { NormalTablesCarryOver S.step }
{}

/// The normal table of a component that is never empty-handed has the component's behaviour, and so have the parts of a
/// shape.
pub fn normal_tables_behave<S: Transitions>()
    ensures each { NormalTablesBehave S.step }
    ensures all { ShapesBehave S.step }
{}

/// The shape of a network is well formed.
pub fn shapes_are_well_formed<S: Transitions>()
    ensures { ShapesAreWellFormed S.step }
{}

/// The shape of a network is busy exactly where its components are.
pub fn shapes_are_busy<S: Transitions>()
    ensures { ShapesAreBusy S.step }
{}

/// Over tables alone: ranks that fall along ungranted requests leave no state in which no event is agreed.
pub fn none_is_stuck()
    ensures { NoneIsStuck }
{}

/// A sound network with a good ranking over any tables is live.
pub fn good_rankings_mean_live<S: Transitions>()
    ensures { GoodRankingsMeanLive S.step }
{}

/// A network with a good ranking, and a network that is stuck, for which no ranking is good.
pub fn examples()
    ensures live { ExampleIsLive }
    ensures stuck { ExampleIsStuck }
{}
