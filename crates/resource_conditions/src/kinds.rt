//! Whether links join users and resources, and whether a resource's sets part what it shares.

ghost use Rattle.std.specs.Prelude.{◌≡◌, ◌<◌, IfErr, IfOk, MatchBool, OnOk, length, min};
ghost use Rattle.csp_base.specs.Stops.{Tells};
ghost use Rattle.resource_conditions.specs.Finding.{IsFirstWithout};
ghost use Rattle.shape_links.specs.Setting.{KeepKinds};
ghost use Rattle.resource_conditions.specs.Setting.{AreOtherKinds, HasLinked, HasParted, Breaks};

use csp_base::{Made, Stop, Trace};
use design_rules::{Condition, RuleFault};
use shape_links::Setting;
use std::alloc::Global;

/// Succeeds where U1 holds, and else tells the first part that breaks it.
pub fn check_kinds(alloc: Global, setting: &Setting<'_>) -> Result<(), Stop<RuleFault>>
    ensures kinds { OnOk result (KeepKinds setting.now) }
    ensures fault { IfErr result (Tells (Breaks setting.now)) }
{
    let _form = setting.shape();
    let unlinked = first_unlinked(setting);
    let unparted = first_unparted(alloc, setting)?;
    let part = smaller(unlinked, unparted);
    if part < setting.count() {
        return Err(Stop::Told(RuleFault::Broken {
            condition: Condition::Kinds,
            part,
            trace: Trace::new(alloc),
        }));
    }
    Ok(())
}

// The smaller of the two.
fn smaller(a: u32, b: u32) -> u32
    ensures { result ≡ min a b }
{
    if a < b { a } else { b }
}

// The first part that is the left end of a link that does not join a user and a resource.
fn first_unlinked(setting: &Setting<'_>) -> u32
    ensures { IsFirstWithout (HasLinked setting.now) (length setting.now.shape.parts) result }
{
    let shape = setting.shape();
    for link in shape.links() {
        if !joins_kinds(setting, link.left(), link.right()) {
            return link.left();
        }
    }
    setting.count()
}

// Whether one of the two parts is a resource and the other a user.
fn joins_kinds(setting: &Setting<'_>, left: u32, right: u32) -> bool
    requires left { left < length setting.now.shape.parts }
    requires right { right < length setting.now.shape.parts }
    ensures { MatchBool result (AreOtherKinds setting.now left right) (AreOtherKinds setting.now left right → ⊥) }
{
    setting.uses(left).is_resource() != setting.uses(right).is_resource()
}

// The first resource whose sets do not part what it shares.
fn first_unparted(alloc: Global, setting: &Setting<'_>) -> Made<u32>
    ensures { IfOk result (IsFirstWithout (HasParted setting.now) (length setting.now.shape.parts)) }
{
    for part in 0..setting.count() {
        let parted = is_parted(alloc, setting, part)?;
        if !parted {
            return Ok(part);
        }
    }
    Ok(setting.count())
}

// Whether the part is a user, or its sets part what it shares.
fn is_parted(alloc: Global, setting: &Setting<'_>, part: u32) -> Made<bool>
    requires { part < length setting.now.shape.parts }
    ensures { IfOk result (λ parted. MatchBool parted (HasParted setting.now part) (HasParted setting.now part → ⊥)) }
{
    let uses = setting.uses(part);
    if !uses.is_resource() {
        return Ok(true);
    }
    if uses.acquire().meets(uses.release()) {
        return Ok(false);
    }
    let told = uses.acquire().union(alloc, uses.release())?;
    let alphabet = setting.component(part).alphabet();
    let shared = alphabet.inter(alloc, setting.shape().vocabulary())?;
    if !told.is_subset(&shared) {
        return Ok(false);
    }
    Ok(shared.is_subset(&told))
}
