//! The decision by each of the rules.

ghost use Rattle.std.specs.Prelude.{IfErr, IfOk, OnOk};
ghost use Rattle.csp_base.specs.Stops.{Tells};
ghost use Rattle.csp_tables.specs.Prelude.{TripleDisjoint, alphabets_of, IsWellFormed};
ghost use Rattle.design_rules.specs.Rules.{Breaks, HasNotes, Meets, Ranks};

use client_server_rule::client_server;
use csp_base::Stop;
use csp_tables::{Ranking, Shape};
use cyclic_rule::cyclic;
use design_rules::{NotedRule, RuleFault};
use resource_rule::resource;
use std::alloc::Global;

// The ranking of a network that meets the rule, or what breaks it.
pub(crate) fn decide(
    alloc: Global,
    rule: &NotedRule,
    shape: &Shape,
) -> Result<Ranking, Stop<RuleFault>>
    requires form { IsWellFormed shape.now }
    requires apart { TripleDisjoint (alphabets_of shape.now.parts) }
    requires notes { HasNotes rule.now shape.now }
    ensures met { OnOk result (Meets rule.now shape.now) }
    ensures ranking { IfOk result (λ ranking. Ranks rule.now shape.now ranking) }
    // Each fault refutes the rule (design_rules).
    ensures fault { IfErr result (Tells (Breaks rule.now shape.now)) }
{
    match rule {
        NotedRule::Cyclic => cyclic(alloc, shape),
        NotedRule::ClientServer(roles) => client_server(alloc, shape, roles.as_slice()),
        NotedRule::Resource(uses) => resource(alloc, shape, uses.as_slice()),
    }
}
