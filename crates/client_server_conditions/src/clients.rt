//! Which end of each link is the client.

ghost use Rattle.std.specs.Prelude.{◌≡◌, ◌<◌, ◌⊎◌, ◌↔◌, [], ℕ, None, IfErr, IfOk, IsTrue, length};
ghost use Rattle.csp_base.specs.Prelude.{Tells};
ghost use Rattle.csp_tables.specs.Shape.{IsWellFormed, link_at};
ghost use Rattle.design_rules.specs.Prelude.{HasRoles, BreaksClientServer};
ghost use Rattle.client_server_conditions.specs.Sides.{AgreeOn, AreSides, HaveNoOther, IsClient, IsSide, IsSideOrNone};

use csp_base::{EventSet, Made, NoMemory, Stop, Trace};
use csp_tables::{RoleSets, Shape};
use design_rules::{Condition, RuleFault};
use std::alloc::Global;

// For each link whether its left end is the client; the right end is it elsewhere. Or the first link that has no client.
pub(crate) fn sides(
    alloc: Global,
    shape: &Shape,
    roles: &[RoleSets],
) -> Result<Vec<bool>, Stop<RuleFault>>
    requires form { IsWellFormed shape.now }
    requires roles { length roles.now ≡ length shape.now.parts }
    requires parted { (i : ℕ) → i < length shape.now.parts → HasRoles shape.now roles.now i }
    ensures sides { IfOk result (λ sides. AreSides shape.now roles.now (length shape.now.links) sides.items) }
    ensures fault { IfErr result (Tells (λ fault. BreaksClientServer shape.now roles.now fault)) }
{
    let mut sides = Vec::new(alloc);
    for link in 0..shape.links().len() {
        let Some(left_asks) = side(alloc, shape, roles, link as u32)? else {
            return Err(Stop::Told(no_client(alloc, shape, link as u32)));
        };
        let Ok(()) = sides.push(left_asks) else {
            return Err(Stop::NoMemory);
        };
    }
    Ok(sides)
}

// The link has no client.
fn no_client(alloc: Global, shape: &Shape, link: u32) -> RuleFault
    requires { link < length shape.now.links }
    ensures { result ≡ RuleFault.Broken Condition.Clients (link_at shape.now link).left [] }
{
    let trace = Trace::new(alloc);
    RuleFault::Broken {
        condition: Condition::Clients,
        part: shape.links()[link as usize].left(),
        trace,
    }
}

// Whether the left end of the link is its client, where one of its ends is.
fn side(alloc: Global, shape: &Shape, roles: &[RoleSets], link: u32) -> Made<Option<bool>>
    requires form { IsWellFormed shape.now }
    requires roles { length roles.now ≡ length shape.now.parts }
    requires link { link < length shape.now.links }
    ensures { IfOk result (λ side. IsSideOrNone shape.now roles.now link side) }
{
    let ends = &shape.links()[link as usize];
    let left = &roles[ends.left() as usize];
    let right = &roles[ends.right() as usize];
    if is_client(alloc, ends.shared(), left, right)? {
        return Ok(Some(true));
    }
    if is_client(alloc, ends.shared(), right, left)? {
        return Ok(Some(false));
    }
    Ok(None)
}

// Whether of the events of a link the first is the client and the second the server.
fn is_client(alloc: Global, events: &EventSet, client: &RoleSets, server: &RoleSets) -> Made<bool>
    ensures { IfOk result (λ is. IsTrue is ↔ IsClient events.now client.now server.now) }
{
    if !no_other(events, client, server) {
        return Ok(false);
    }
    if !agree_on(alloc, events, client.creq(), server.sreq())? {
        return Ok(false);
    }
    agree_on(alloc, events, client.cack(), server.sack())
}

// Whether the client serves by none of the events, and the server asks by none.
fn no_other(events: &EventSet, client: &RoleSets, server: &RoleSets) -> bool
    ensures { IsTrue result ↔ HaveNoOther events.now client.now server.now }
{
    if events.meets(client.sreq()) {
        return false;
    }
    if events.meets(client.sack()) {
        return false;
    }
    if events.meets(server.creq()) {
        return false;
    }
    !events.meets(server.cack())
}

// Whether the two sets have the same of the events.
fn agree_on(alloc: Global, events: &EventSet, first: &EventSet, second: &EventSet) -> Made<bool>
    ensures { IfOk result (λ agree. IsTrue agree ↔ AgreeOn events.now first.now second.now) }
{
    let mine = events.inter(alloc, first)?;
    let other = events.inter(alloc, second)?;
    if !mine.is_subset(second) {
        return Ok(false);
    }
    Ok(other.is_subset(first))
}
