//! Hidden events that follow one another, and an order of components in which they are bounded, over any step relation.
#![tactic(auto)]

ghost use Rattle.hidden_steps.specs.Agreeing.{BoundsAreOne, NoOrderExcludesOrders, OrdersAreOne, OthersAreOne, TakingsAreFronts};
ghost use Rattle.hidden_steps.specs.Bounded.{HiddenStepsAreBounded};

use net_sound::Transitions;

/// Where all components of a network are taken in an order, at most as many of its steps follow one another that are silent or hidden as their bounds add up to.
#[tactic(auto, using(crate::proofs::Bounding::hidden_steps_are_bounded))]
pub fn hidden_steps_are_bounded<S: Transitions>()
    ensures { HiddenStepsAreBounded S.step }
{}

/// Of two takings of the same components one is a front of the other. So all orders are one, with one bound; where some components are left that are not
/// free, there is none, and these are the same.
#[tactic(auto, using(crate::proofs::Agreeing::fronts, crate::proofs::Agreeing::one_order, crate::proofs::Agreeing::one_bound))]
pub fn orders_agree<S: Transitions>()
    ensures fronts { TakingsAreFronts S.step }
    ensures orders { OrdersAreOne S.step }
    ensures bounds { BoundsAreOne S.step }
    ensures excluded { NoOrderExcludesOrders S.step }
    ensures others { OthersAreOne S.step }
{}
