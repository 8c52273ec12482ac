//! Whether each user acquires and releases each of its resources in turn.

ghost use Rattle.std.specs.Prelude.{◌≡◌, ◌<◌, ℕ, IfErr, IfOk, OnOk, IsTrue, length};
ghost use Rattle.std.specs.List.{list_all};
ghost use Rattle.csp_base.specs.Prelude.{Tells};
ghost use Rattle.csp_tables.specs.Prelude.{part_at, Joins, is_end};
ghost use Rattle.design_rules.specs.Resource.{UsesInTurn};
ghost use Rattle.resource_conditions.specs.Finding.{FindsRun};
ghost use Rattle.resource_conditions.specs.Setting.{Breaks, KeepGrants, KeepTurns, UsersKeepTurns};
ghost use Rattle.resource_rule.specs.Uses.{UsesLink, are_uses, is_use};
ghost use Rattle.shape_links.specs.Links.{ends_of};
ghost use Rattle.shape_links.specs.Setting.{IsUser, KeepKinds};

use crate::user::User;
use csp_base::{Event, Made, Stop, Trace};
use design_rules::{Condition, RuleFault};
use observed_runs::Parity;
use resource_conditions::{Decider, check};
use shape_links::{Requirement, Setting};
use std::alloc::Global;

// The users.
#[derive(Clone, Copy)]
struct Users<'a> {
    setting: &'a Setting<'a>,
}

// Succeeds where U4 holds, and else tells the first user that breaks it.
pub(crate) fn check_users(alloc: Global, setting: &Setting<'_>) -> Result<(), Stop<RuleFault>>
    requires kinds { KeepKinds setting.now }
    requires turns { KeepTurns setting.now }
    requires grants { KeepGrants setting.now }
    ensures users { OnOk result (UsersKeepTurns setting.now) }
    ensures fault { IfErr result (Tells (Breaks setting.now)) }
{
    check(alloc, setting.count(), &Users { setting }, Condition::Uses)
}

impl<'a> Decider for Users<'a> {
    ghost shape = { λ u. u.setting.now.shape };

    ghost keeps = { λ u i s. IsUser u.setting.now i → UsesInTurn u.setting.now.shape u.setting.now.uses i s };

    fn broken_run(&self, alloc: Global, part: u32) -> Made<Option<Trace>> {
        if self.setting.uses(part).is_resource() {
            return Ok(None);
        }
        let user = User {
            setting: self.setting,
            part,
        };
        user.broken_use(alloc)
    }
}

impl<'a> User<'a> {
    // A run after which the part does not use the resource of one of its links in turn.
    fn broken_use(&self, alloc: Global) -> Made<Option<Trace>>
        ensures { IfOk result (FindsRun self.now.setting.now.shape self.now.part
            (UsesInTurn self.now.setting.now.shape self.now.setting.now.uses self.now.part)) }
    {
        let in_turn = self.turns_by_nodes(alloc)?;
        if in_turn {
            return Ok(None);
        }
        for link in self.links() {
            if let Some(run) = self.broken_on(alloc, *link)? {
                return Ok(Some(run));
            }
        }
        Ok(None)
    }

    // A run after which the part does not use the resource of this link in turn.
    fn broken_on(&self, alloc: Global, link: u32) -> Made<Option<Trace>>
        requires link { link < length self.now.setting.now.shape.links }
        requires end { IsTrue (is_end self.now.setting.now.shape self.now.part link) }
        ensures { IfOk result (FindsRun self.now.setting.now.shape self.now.part (λ s. (j : ℕ)
            → Joins self.now.setting.now.shape self.now.part j link
            → UsesLink self.now.setting.now self.now.part link j s)) }
    {
        let _form = self.setting.shape();
        let uses = LinkUse {
            user: *self,
            link,
            other: self.other_end(link),
        };
        let component = self.setting.component(self.part);
        component.failing_run(alloc, &Parity::new(self.setting.link(link).shared()), &uses)
    }

    // The links of the part, in rising order.
    pub(crate) fn links(&self) -> &'a [u32]
        ensures { result.now ≡ ends_of self.now.setting.now.shape self.now.part }
    {
        self.setting.component(self.part).links()
    }

    // The other end of a link of the part.
    pub(crate) fn other_end(&self, link: u32) -> u32
        requires { link < length self.now.setting.now.shape.links }
        ensures joins { IsTrue (is_end self.now.setting.now.shape self.now.part link)
            → Joins self.now.setting.now.shape self.now.part result link }
        ensures only { (j : ℕ) → Joins self.now.setting.now.shape self.now.part j link → j ≡ result }
        ensures within { result < length self.now.setting.now.shape.parts }
    {
        let _form = self.setting.shape();
        let ends = self.setting.link(link);
        if ends.left() == self.part {
            return ends.right();
        }
        ends.left()
    }
}

// A link of a part, with the resource at its other end.
#[derive(Clone, Copy)]
struct LinkUse<'a> {
    user: User<'a>,
    link: u32,
    other: u32,
    ghost link_within: { link < length user.setting.now.shape.links },
    ghost other_within: { other < length user.setting.now.shape.parts },
}

impl<'a> Requirement for LinkUse<'a> {
    ghost nodes = { λ u. length (part_at u.user.setting.now.shape.parts u.user.part).table };

    ghost meets = { λ u node state. are_uses u.user.setting.now u.user.part u.link u.other (node, state) };

    fn is_met(&self, node: u32, state: u32) -> Made<bool> {
        let _form = self.user.setting.shape();
        let component = self.user.setting.component(self.user.part);
        Ok(all_uses(self, state, component.steps(node)))
    }
}

// Whether the event of each of the steps, if it is on the link, is in turn.
fn all_uses(link: &LinkUse<'_>, state: u32, steps: &[(Event, u32)]) -> bool
    ensures { result ≡ list_all (λ (step : ℕ × ℕ).
        is_use link.now.user.setting.now link.now.link link.now.other state step.0) steps.now }
{
    steps
        .iter()
        .all(|(event, _)| use_in_turn(link, state, *event))
}

// Whether the event, if it is on the link, is in turn.
fn use_in_turn(link: &LinkUse<'_>, state: u32, event: Event) -> bool
    ensures { result ≡ is_use link.now.user.setting.now link.now.link link.now.other state event }
{
    let setting = link.user.setting;
    if !setting.link(link.link).shared().contains(event) {
        return true;
    }
    let uses = setting.uses(link.other);
    if state == 0 {
        return uses.acquire().contains(event);
    }
    uses.release().contains(event)
}
