//! Whether each resource is acquired and released in turn, and grants what is asked of it.

ghost use Rattle.std.specs.Prelude.{◌<◌, IfErr, OnOk, length};
ghost use Rattle.csp_base.specs.Prelude.{Tells};
ghost use Rattle.csp_tables.specs.Prelude.{part_at};
ghost use Rattle.resource_conditions.specs.Setting.{Breaks, KeepGrants, KeepTurns};
ghost use Rattle.resource_conditions.specs.Tests.{Keeps, meets};
ghost use Rattle.shape_links.specs.Setting.{IsResourcePart, KeepKinds};

use crate::checking::{Decider, check};
use crate::tests::{grants_at, turns_at};
use csp_base::{Made, Stop, Trace};
use design_rules::{Condition, RuleFault};
use observed_runs::Holder;
use shape_links::{Requirement, Setting};
use std::alloc::Global;

/// What is asked of a resource.
#[derive(Clone, Copy)]
pub enum Asked {
    /// That it is acquired where it is free, and released by its holder where it is held.
    Turns,

    /// That it grants each acquisition where it is free, and each release of its holder where it is held.
    Grants,
}

// The resources, of which this is asked.
#[derive(Clone, Copy)]
struct Resources<'a> {
    setting: &'a Setting<'a>,
    asked: Asked,
}

/// Succeeds where U2 holds, and else tells the first resource that breaks it.
pub fn check_turns(alloc: Global, setting: &Setting<'_>) -> Result<(), Stop<RuleFault>>
    requires { KeepKinds setting.now }
    ensures turns { OnOk result (KeepTurns setting.now) }
    ensures fault { IfErr result (Tells (Breaks setting.now)) }
{
    let _form = setting.shape();
    let resources = Resources {
        setting,
        asked: Asked::Turns,
    };
    check(alloc, setting.count(), &resources, Condition::Holders)
}

/// Succeeds where U3 holds, and else tells the first resource that breaks it.
pub fn check_grants(alloc: Global, setting: &Setting<'_>) -> Result<(), Stop<RuleFault>>
    requires kinds { KeepKinds setting.now }
    requires turns { KeepTurns setting.now }
    ensures grants { OnOk result (KeepGrants setting.now) }
    ensures fault { IfErr result (Tells (Breaks setting.now)) }
{
    let _form = setting.shape();
    let resources = Resources {
        setting,
        asked: Asked::Grants,
    };
    check(alloc, setting.count(), &resources, Condition::Grants)
}

impl<'a> Decider for Resources<'a> {
    ghost shape = { λ r. r.setting.now.shape };

    ghost keeps = { λ r i s. IsResourcePart r.setting.now i → Keeps r.asked r.setting.now i s };

    fn broken_run(&self, alloc: Global, part: u32) -> Made<Option<Trace>> {
        if !self.setting.uses(part).is_resource() {
            return Ok(None);
        }
        let resource = Resource {
            alloc,
            setting: self.setting,
            part,
            asked: self.asked,
        };
        let _form = self.setting.shape();
        let holder = Holder::new(self.setting.sorted_shape().owners());
        let component = self.setting.component(part);
        component.failing_run(alloc, &holder, &resource)
    }
}

// One part, of which this is asked.
#[derive(Clone, Copy)]
struct Resource<'a> {
    alloc: Global,
    setting: &'a Setting<'a>,
    part: u32,
    asked: Asked,
    ghost within: { part < length setting.now.shape.parts },
}

impl<'a> Requirement for Resource<'a> {
    ghost nodes = { λ r. length (part_at r.setting.now.shape.parts r.part).table };

    ghost meets = { λ r. meets r.asked r.setting.now r.part };

    fn is_met(&self, node: u32, state: u32) -> Made<bool> {
        match self.asked {
            Asked::Turns => Ok(turns_at(self.setting, self.part, node, state)),
            Asked::Grants => grants_at(self.alloc, self.setting, self.part, (node, state)),
        }
    }
}
