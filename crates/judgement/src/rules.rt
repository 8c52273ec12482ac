//! The rules, with what a script notes of each component.

ghost use Rattle.std.specs.Prelude.{◌≡◌, IfErr, IfOk, OnOk};
ghost use Rattle.csp_tables.specs.Prelude.{Falls, Fits};
ghost use Rattle.design_rules.specs.Rules.{HasNotes, Ranks};
ghost use Rattle.csp_base.specs.Stops.{Tells};
ghost use Rattle.judgement.specs.Noted.{Breaks, HasUntold, Meets, Notes, noted_refusal};

use crate::deciding::decide;
use csp_base::Stop;
use csp_tables::{Ranking, Rule};
use design_rules::NotedRule;
use network_layout::{NotedFault, roles_of, uses_of};
use network_stages::{Shaped, Spelled};
use report::{Refusal, Shortfall, Site};
use std::alloc::Global;

// A component of which an annotated set has no value.
fn noted_refusal(fault: NotedFault) -> Refusal
    ensures { result ≡ noted_refusal fault }
{
    Refusal::Value {
        kind: fault.kind,
        site: Site::Annotation(fault.part),
    }
}

// The rule with what the script of the network notes for it.
pub(crate) fn noted_rule(
    alloc: Global,
    rule: Rule,
    network: &Spelled,
) -> Result<NotedRule, Stop<Refusal>>
    ensures ok { IfOk result (Notes network.now rule) }
    ensures told { IfErr result (Tells (HasUntold network.now rule)) }
{
    match rule {
        Rule::Cyclic => Ok(NotedRule::Cyclic),
        Rule::ClientServer => match roles_of(alloc, network.program(), network.layout()) {
            Ok(roles) => Ok(NotedRule::ClientServer(roles)),
            Err(Stop::NoMemory) => Err(Stop::NoMemory),
            Err(Stop::Told(fault)) => Err(Stop::Told(noted_refusal(fault))),
        },
        Rule::Resource => match uses_of(alloc, network.program(), network.layout()) {
            Ok(uses) => Ok(NotedRule::Resource(uses)),
            Err(Stop::NoMemory) => Err(Stop::NoMemory),
            Err(Stop::Told(fault)) => Err(Stop::Told(noted_refusal(fault))),
        },
    }
}

// The ranking that the rule gives to a network with its shape, or what breaks the rule.
pub(crate) fn ranking_by(
    alloc: Global,
    rule: &NotedRule,
    shaped: &Shaped<'_>,
) -> Result<Ranking, Stop<Shortfall>>
    requires { HasNotes rule.now shaped.now.shape }
    ensures met { OnOk result (Meets shaped.now.network rule.now) }
    ensures ranks { IfOk result (Ranks rule.now shaped.now.shape) }
    ensures fits { IfOk result (Fits shaped.now.shape.parts) }
    ensures falls { IfOk result (Falls shaped.now.shape.parts) }
    ensures told { IfErr result (Tells (Breaks shaped.now.network rule.now)) }
{
    let shape = shaped.shape();
    match decide(alloc, rule, shape) {
        Ok(ranking) => Ok(ranking),
        Err(Stop::NoMemory) => Err(Stop::NoMemory),
        Err(Stop::Told(fault)) => Err(Stop::Told(Shortfall::Breaks(fault))),
    }
}
