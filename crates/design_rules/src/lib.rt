//! The three rules, and what breaks them. Their rankings are good: each falls along every ungranted request.
#![tactic(auto)]

mod condition;
mod noted_rule;
mod rule_fault;

ghost use Rattle.design_rules.specs.Prelude.{NetworkFaultsRefute, NetworksBreak, NetworksMeet, OutlinesAgree, ReadingsAgree, ClientServerRanksFall, CyclicRanksFall, IsRuleByNumbers, NetworksAreNumbered, NumberedRanksFall, PlacesAreOrders, ReachedRanksFall, PairIsClientServer, RowIsCyclic, TwoUsersAreResource, MetRulesMeanLive, RankingsHaveGreatestRank, OrderedRanksFall, ResourceRanksFall, FaultsRefute};

pub use condition::Condition;
use net_sound::Transitions;
pub use noted_rule::NotedRule;
pub use rule_fault::RuleFault;

/// The ranking of a cyclic network falls: the one with the smallest numbers, and any other by which the rule can be said.
#[tactic(auto, using(crate::proofs::CyclicRule::cyclic_ranks_fall, crate::proofs::CyclicRule::numbered_ranks_fall, crate::proofs::CyclicRule::reached_ranks_fall))]
pub fn cyclic_ranks_fall()
    ensures chains { CyclicRanksFall }
    ensures numbered { NumberedRanksFall }
    ensures reached { ReachedRanksFall }
{}

/// The cyclic rule can be said by numbers of the links: for one component, for a shape, and for a network by its own steps.
#[tactic(auto, using(crate::proofs::OneOrder::places_are_orders, crate::proofs::CyclicRule::is_rule_by_numbers, crate::proofs::Readings::networks_are_numbered))]
pub fn cyclic_rule_by_numbers<S: Transitions>()
    ensures component { PlacesAreOrders }
    ensures shape { IsRuleByNumbers }
    ensures network { NetworksAreNumbered S.step }
{}

/// The ranking of a client-server network falls.
#[tactic(auto, using(crate::proofs::ClientServer::client_server_ranks_fall))]
pub fn client_server_ranks_fall()
    ensures { ClientServerRanksFall }
{}

/// The ranking of a network of users and resources falls: the one with the smallest numbers, and any other that rises.
pub fn resource_ranks_fall()
    ensures chains { ResourceRanksFall }
    ensures ordered { OrderedRanksFall }
{}

/// Each fault that is told of a network, but for want of memory, refutes the rule.
#[tactic(auto, using(crate::proofs::Refuting::faults_refute))]
pub fn faults_refute()
    ensures { FaultsRefute }
{}

/// A network meets a rule, by its alphabets and by its own steps, exactly where its shape does by its tables; and a fault is true of the one exactly where
/// it is true of the other.
#[tactic(auto, using(crate::proofs::Readings::outlines_agree, crate::proofs::Readings::readings_agree, crate::proofs::Readings::networks_meet, crate::proofs::Readings::networks_break, crate::proofs::Readings::network_faults_refute))]
pub fn rules_speak_of_networks<S: Transitions>()
    ensures outlines { OutlinesAgree S.step }
    ensures readings { ReadingsAgree S.step }
    ensures met { NetworksMeet S.step }
    ensures broken { NetworksBreak S.step }
    ensures refuted { NetworkFaultsRefute S.step }
{}

/// The greatest number of the ranking that a rule gives to the shape of a network is the network's greatest rank by the rule.
pub fn rankings_have_greatest_rank<S: Transitions>()
    ensures { RankingsHaveGreatestRank S.step }
{}

/// A network whose shape meets one of the three rules is live, with its silent bound.
#[tactic(auto, using(crate::proofs::Live::met_rules_mean_live))]
pub fn rules_mean_live<S: Transitions>()
    ensures { MetRulesMeanLive S.step }
{}

/// Shapes that meet the rules, with their rankings.
#[tactic(auto, using(crate::proofs::RowOfThree::row_is_cyclic, crate::proofs::Acknowledging::pair_is_client_server, crate::proofs::TwoUsers::two_users_are_resource))]
pub fn examples()
    ensures cyclic { RowIsCyclic }
    ensures client_server { PairIsClientServer }
    ensures resource { TwoUsersAreResource }
{}
