//! The rule as a whole.

ghost use Rattle.std.specs.Prelude.{◌≡◌, ◌<◌, All, IfErr, IfOk, OnOk, length};
ghost use Rattle.csp_base.specs.Prelude.{Tells};
ghost use Rattle.csp_tables.specs.Prelude.{TripleDisjoint, alphabets_of, IsWellFormed};
ghost use Rattle.design_rules.specs.Prelude.{IsClientServer, KeepRoles, IsClientServerRanking, BreaksClientServer};
ghost use Rattle.digraph.specs.Prelude.{HasNoCircle};
ghost use Rattle.client_server_rule.specs.Serving.{HaveHeights, ServesIn};

use crate::arcs::heights;
use client_server_conditions::{Network, RunCondition, check};
use csp_base::Stop;
use csp_tables::{Ranking, RoleSets, Shape};
use design_rules::RuleFault;
use digraph::Heights;
use rule_rankings::client_server_ranking;
use std::alloc::Global;

/// The ranking of a network of clients and servers, or what breaks the rule: the least condition of S1 to S5, or S6.
pub fn client_server(
    alloc: Global,
    shape: &Shape,
    roles: &[RoleSets],
) -> Result<Ranking, Stop<RuleFault>>
    requires form { IsWellFormed shape.now }
    requires apart { TripleDisjoint (alphabets_of shape.now.parts) }
    requires roles { length roles.now ≡ length shape.now.parts }
    ensures client_server { OnOk result (IsClientServer shape.now roles.now) }
    ensures ranking { IfOk result (λ ranking. IsClientServerRanking shape.now roles.now ranking) }
    ensures fault { IfErr result (Tells (λ fault. BreaksClientServer shape.now roles.now fault)) }
{
    let network = Network::new(alloc, shape, roles)?;
    ranking_of(alloc, &network)
}

// The same of a network in which S1 and S2 hold.
fn ranking_of(alloc: Global, network: &Network<'_>) -> Result<Ranking, Stop<RuleFault>>
    ensures client_server { OnOk result (IsClientServer network.now.shape network.now.roles) }
    ensures ranking { IfOk result (λ ranking. IsClientServerRanking network.now.shape network.now.roles ranking) }
    ensures fault { IfErr result (Tells (λ fault. BreaksClientServer network.now.shape network.now.roles fault)) }
{
    let heights = checked_heights(alloc, network)?;
    let ranking = client_server_ranking(
        alloc,
        network.sorted_shape(),
        network.all_roles(),
        &heights,
    )?;
    Ok(ranking)
}

// The heights of the parts, where S3, S4, S5 and S6 hold, and else the least that does not.
fn checked_heights(alloc: Global, network: &Network<'_>) -> Result<Heights, Stop<RuleFault>>
    ensures keep { OnOk result (KeepRoles network.now.shape network.now.roles) }
    ensures heights { IfOk result (HaveHeights network.now) }
    ensures below { IfOk result (λ heights. All (λ height. height < length network.now.shape.parts) heights) }
    ensures no_circle { OnOk result (HasNoCircle (ServesIn network.now)) }
    ensures fault { IfErr result (Tells (λ fault. BreaksClientServer network.now.shape network.now.roles fault)) }
{
    let _linked = network.shape();
    check(alloc, network, RunCondition::Turns)?;
    check(alloc, network, RunCondition::Service)?;
    check(alloc, network, RunCondition::Answers)?;
    heights(alloc, network)
}
