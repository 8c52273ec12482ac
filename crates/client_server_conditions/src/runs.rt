//! Runs after which a component breaks S3, S4 or S5.

ghost use Rattle.std.specs.Prelude.{◌≡◌, ◌<◌, ℕ, List, IsTrue, IfErr, IfOk, OnOk, length};
ghost use Rattle.csp_base.specs.Prelude.{Tells};
ghost use Rattle.csp_tables.specs.Prelude.{is_end};
ghost use Rattle.design_rules.specs.Rules.{BreaksClientServer};
ghost use Rattle.client_server_conditions.specs.Conditions.{Keeps, KeepLesser, KeepsLinks, KeepsOn, KeepsWhole};
ghost use Rattle.client_server_conditions.specs.Duties.{Decides};

use crate::conditions::RunCondition;
use crate::duty::Duty;
use crate::network::Network;
use crate::nodes::some_acknowledged;
use crate::required::{OnLink, Undivided};
use csp_base::{Made, Stop, Trace};
use design_rules::RuleFault;
use observed_runs::{Parity, Unwatched};
use std::alloc::Global;

/// Succeeds where each component keeps the condition after each of its runs, and else tells the first that does not.
pub fn check(
    alloc: Global,
    network: &Network<'_>,
    condition: RunCondition,
) -> Result<(), Stop<RuleFault>>
    requires lesser { KeepLesser network.now condition }
    ensures keeps { OnOk result ((i : ℕ) (s : List ℕ) → Keeps network.now condition i s) }
    ensures fault { IfErr result (Tells (λ fault. BreaksClientServer network.now.shape network.now.roles fault)) }
{
    for part in 0..network.shape().parts().len() {
        let duty = Duty {
            network: &*network,
            condition,
            part: part as u32,
        };
        let run = duty.failing_run(alloc)?;
        if let Some(trace) = run {
            return Err(Stop::Told(RuleFault::Broken {
                condition: condition.condition(),
                part: part as u32,
                trace,
            }));
        }
    }
    Ok(())
}

impl<'a> Duty<'a> {
    // A run after which the component breaks the condition, if there is one.
    fn failing_run(&self, alloc: Global) -> Made<Option<Trace>>
        ensures { IfOk result (Decides self.now Keeps) }
    {
        let run = self.whole_run(alloc)?;
        match run {
            Some(trace) => Ok(Some(trace)),
            None => self.links_run(alloc),
        }
    }

    // A run after which the component breaks what the condition asks whatever the link.
    fn whole_run(&self, alloc: Global) -> Made<Option<Trace>>
        ensures { IfOk result (Decides self.now KeepsWhole) }
    {
        match self.condition {
            RunCondition::Service => self.split_run(alloc),
            RunCondition::Turns | RunCondition::Answers => Ok(None),
        }
    }

    // A run after which an acceptance has some requests to the component and not all.
    fn split_run(&self, alloc: Global) -> Made<Option<Trace>>
        ensures { IfOk result (Decides self.now (λ network _. KeepsWhole network RunCondition.Service)) }
    {
        let component = self.component();
        let required = Undivided {
            component,
            requests: self.roles().sreq(),
        };
        component.failing_run(alloc, &Unwatched, &required)
    }

    // A run after which the component breaks what the condition asks on one of its links. They are looked at one by one only
    // where the nodes do not tell it.
    fn links_run(&self, alloc: Global) -> Made<Option<Trace>>
        ensures { IfOk result (Decides self.now KeepsLinks) }
    {
        if self.is_kept_by_nodes(alloc)? {
            return Ok(None);
        }
        for link in self.network.links(self.part) {
            let run = self.link_run(alloc, *link)?;
            if let Some(trace) = run {
                return Ok(Some(trace));
            }
        }
        Ok(None)
    }

    // A run after which the component breaks what the condition asks on the link.
    fn link_run(&self, alloc: Global, link: u32) -> Made<Option<Trace>>
        requires link { link < length self.now.network.now.shape.links }
        requires end { IsTrue (is_end self.now.network.now.shape self.now.part link) }
        ensures { IfOk result (Decides self.now (λ network condition i. KeepsOn network condition i link)) }
    {
        let _linked = self.network.shape();
        let asks = self.network.asks(self.part, link);
        let shared = self.network.sorted_shape().link(link).shared();
        let roles = self.roles();
        let acknowledged = some_acknowledged(shared, roles);
        if !self.condition.is_asked_of(asks, acknowledged) {
            return Ok(None);
        }
        let acknowledgements = shared.inter(alloc, roles.cack())?;
        let component = self.component();
        let required = OnLink {
            condition: self.condition,
            component,
            roles,
            shared,
            acknowledgements: &acknowledgements,
            acknowledged,
        };
        component.failing_run(alloc, &Parity::new(shared), &required)
    }
}
