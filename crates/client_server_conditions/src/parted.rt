//! Whether the four sets of each component part the events that it shares.

ghost use Rattle.std.specs.Prelude.{◌≡◌, ◌<◌, ◌↔◌, ℕ, IfErr, IfOk, OnOk, IsTrue, length};
ghost use Rattle.csp_base.specs.Prelude.{Tells};
ghost use Rattle.design_rules.specs.Prelude.{HasRoles, BreaksClientServer};
ghost use Rattle.client_server_conditions.specs.Sides.{PartOwn};

use csp_base::{EventSet, Made, Stop, Trace};
use csp_tables::{RoleSets, Shape};
use design_rules::{Condition, RuleFault};
use std::alloc::Global;

// Succeeds where each component's sets part what it shares, and else tells the first whose sets do not.
pub(crate) fn check_parted(
    alloc: Global,
    shape: &Shape,
    roles: &[RoleSets],
) -> Result<(), Stop<RuleFault>>
    requires { length roles.now ≡ length shape.now.parts }
    ensures parted { OnOk result ((i : ℕ) → i < length shape.now.parts → HasRoles shape.now roles.now i) }
    ensures fault { IfErr result (Tells (λ fault. BreaksClientServer shape.now roles.now fault)) }
{
    for part in 0..shape.parts().len() {
        if !part_has_roles(alloc, shape, roles, part as u32)? {
            let trace = Trace::new(alloc);
            return Err(Stop::Told(RuleFault::Broken {
                condition: Condition::Roles,
                part: part as u32,
                trace,
            }));
        }
    }
    Ok(())
}

// Whether the sets of the part do.
fn part_has_roles(alloc: Global, shape: &Shape, roles: &[RoleSets], part: u32) -> Made<bool>
    requires part { part < length shape.now.parts }
    requires roles { length roles.now ≡ length shape.now.parts }
    ensures { IfOk result (λ parted. IsTrue parted ↔ HasRoles shape.now roles.now part) }
{
    let own = shape.parts()[part as usize]
        .alphabet()
        .inter(alloc, shape.vocabulary())?;
    part_own(alloc, &own, &roles[part as usize])
}

// Whether the four sets part the events.
fn part_own(alloc: Global, own: &EventSet, roles: &RoleSets) -> Made<bool>
    ensures { IfOk result (λ parted. IsTrue parted ↔ PartOwn own.now roles.now) }
{
    let client = roles.creq().union(alloc, roles.cack())?;
    let server = roles.sreq().union(alloc, roles.sack())?;
    let all = client.union(alloc, &server)?;
    if roles.creq().meets(roles.cack()) {
        return Ok(false);
    }
    if roles.sreq().meets(roles.sack()) {
        return Ok(false);
    }
    if client.meets(&server) {
        return Ok(false);
    }
    if !own.is_subset(&all) {
        return Ok(false);
    }
    Ok(all.is_subset(own))
}
