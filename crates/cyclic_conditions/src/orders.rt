//! The order in which each component goes through its links.

ghost use Rattle.std.specs.Prelude.{◌≡◌, ◌<◌, ◌++◌, ◌∷◌, [], ℕ, List, IfErr, IfOk, OnOk, length};
ghost use Rattle.csp_base.specs.Prelude.{Tells};
ghost use Rattle.design_rules.specs.Prelude.{AllKeepPlaces, KeepsPlaces, BreaksCyclic};
ghost use Rattle.cyclic_conditions.specs.Facts.{AreClashing};
ghost use Rattle.cyclic_conditions.specs.Laps.{AreLaps};
ghost use Rattle.cyclic_conditions.specs.Orders.{AreOrders, IsOrder};
ghost use Rattle.cyclic_conditions.specs.Told.{IsBrokenOrder};

use crate::facts::{Clash, in_order, no_facts, note_all};
use crate::laps::Laps;
use containers::Items;
use csp_base::{Made, NoMemory, Stop};
use design_rules::RuleFault;
use shape_links::{Component, SortedShape};
use std::alloc::Global;

/// For each part the links that it reaches, in the order in which it comes to them; or the first part that goes through them in
/// no fixed order.
pub fn link_orders(
    alloc: Global,
    sorted: &SortedShape<'_>,
) -> Result<Vec<Items<u32>>, Stop<RuleFault>>
    ensures keep { OnOk result (AllKeepPlaces sorted.now) }
    ensures orders { IfOk result (λ orders. AreOrders sorted.now orders.items) }
    ensures fault { IfErr result (Tells (BreaksCyclic sorted.now)) }
{
    let count = sorted.shape().parts().len();
    let mut orders = Vec::new(alloc);
    for part in 0..count {
        add_order(alloc, sorted, part as u32, &mut orders)?;
    }
    Ok(orders)
}

// Adds the order of a part at the end.
fn add_order(
    alloc: Global,
    sorted: &SortedShape<'_>,
    part: u32,
    orders: &mut Vec<Items<u32>>,
) -> Result<(), Stop<RuleFault>>
    requires { part < length sorted.now.parts }
    ensures keeps { OnOk result (KeepsPlaces sorted.now part) }
    ensures order { OnOk result ((order : List ℕ) × IsOrder sorted.now part order
        × (orders.new.items ≡ orders.old.items ++ order ∷ [])) }
    ensures fault { IfErr result (Tells (IsBrokenOrder sorted.now part)) }
{
    let order = order_of(alloc, &sorted.component(part))?;
    let Ok(()) = orders.push(order) else {
        return Err(Stop::NoMemory);
    };
    Ok(())
}

// The links that the component reaches, in the order in which it comes to them.
fn order_of(alloc: Global, component: &Component<'_>) -> Result<Items<u32>, Stop<RuleFault>>
    ensures keeps { OnOk result (KeepsPlaces component.now.shape.now component.now.number) }
    ensures order { IfOk result (λ order. IsOrder component.now.shape.now component.now.number order) }
    ensures fault { IfErr result (Tells (IsBrokenOrder component.now.shape.now component.now.number)) }
{
    let count = component.links().len();
    if count == 0 {
        return Ok(Items::new(alloc));
    }
    let laps = Laps::new(alloc, component)?;
    order_along(alloc, &laps)
}

// The same of a part that has links, by its laps.
fn order_along(alloc: Global, laps: &Laps<'_>) -> Result<Items<u32>, Stop<RuleFault>>
    requires { AreLaps laps.now }
    ensures keeps { OnOk result (KeepsPlaces laps.now.component.shape.now laps.now.component.number) }
    ensures order { IfOk result (λ order. IsOrder laps.now.component.shape.now laps.now.component.number order) }
    ensures fault { IfErr result (Tells (IsBrokenOrder laps.now.component.shape.now laps.now.component.number)) }
{
    let mut firsts = no_facts(alloc, laps.component.links().len())?;
    match note_all(laps, &mut firsts) {
        Ok(()) => Ok(in_order(alloc, &firsts)?),
        Err(clash) => Err(Stop::Told(no_order(alloc, laps, clash)?)),
    }
}

// What two facts tell that no order allows: the one whose run is not the shorter one.
fn no_order(alloc: Global, laps: &Laps<'_>, clash: Clash) -> Made<RuleFault>
    requires laps { AreLaps laps.now }
    requires clash { AreClashing laps.now clash.here clash.there }
    ensures { IfOk result (IsBrokenOrder laps.now.component.shape.now laps.now.component.number) }
{
    let first = laps.explored.run_to(alloc, clash.here.pair)?;
    let second = laps.explored.run_to(alloc, clash.there.pair)?;
    if second.len() <= first.len() {
        return Ok(RuleFault::NoOrder {
            part: laps.component.number,
            trace: first,
            event: clash.here.event,
        });
    }
    Ok(RuleFault::NoOrder {
        part: laps.component.number,
        trace: second,
        event: clash.there.event,
    })
}
