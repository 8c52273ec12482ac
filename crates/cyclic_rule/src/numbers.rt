//! The numbers of the links: how many must come before each, in a chain.

ghost use Rattle.std.specs.Prelude.{◌≡◌, ◌<◌, All, IfErr, IfOk, OnOk, length, slice_index};
ghost use Rattle.csp_base.specs.Prelude.{Tells, has};
ghost use Rattle.digraph.specs.Digraph.{HasArc};
ghost use Rattle.design_rules.specs.Prelude.{AllKeepPlaces, NumbersRise, AreChainNumbers, BreaksCyclic};
ghost use Rattle.cyclic_rule.specs.Chains.{Adds, AreChains, IsNextIn, IsRest, IsRestAfter};
ghost use Rattle.cyclic_conditions.specs.Orders.{AreOrders};

use crate::ends::turned_ends;
use containers::Items;
use csp_base::{Made, NoMemory, Stop};
use design_rules::RuleFault;
use digraph::{Heights, Rows, longest_walks};
use shape_links::SortedShape;
use std::alloc::Global;

// For each link the greatest number of links that must come before it in a chain.
pub(crate) fn numbers(
    alloc: Global,
    sorted: &SortedShape<'_>,
    orders: &[Items<u32>],
) -> Result<Heights, Stop<RuleFault>>
    requires keep { AllKeepPlaces sorted.now }
    requires orders { AreOrders sorted.now orders.now }
    ensures count { IfOk result (λ numbers. length numbers ≡ length sorted.now.links) }
    ensures chains { IfOk result (λ numbers. AreChainNumbers sorted.now (slice_index numbers)) }
    ensures rise { IfOk result (λ numbers. NumbersRise sorted.now (slice_index numbers)) }
    ensures fault { IfErr result (Tells (BreaksCyclic sorted.now)) }
{
    let form = sorted.shape();
    let rows = chains(alloc, sorted, orders)?;
    match longest_walks(alloc, &rows) {
        Ok(heights) => Ok(heights),
        Err(Stop::Told(circle)) => {
            let links = turned_ends(alloc, form, circle.members())?;
            Err(Stop::Told(RuleFault::LinksCircle { links }))
        }
        Err(Stop::NoMemory) => Err(Stop::NoMemory),
    }
}

// From each link an arc to the one that comes before it in the order of a part.
fn chains(alloc: Global, sorted: &SortedShape<'_>, orders: &[Items<u32>]) -> Made<Rows>
    requires { AreOrders sorted.now orders.now }
    ensures { IfOk result (AreChains sorted.now orders.now) }
{
    let count = sorted.shape().links().len();
    let mut rows = Rows::new(alloc, count as u32)?;
    for part in 0..orders.len() {
        let ends = sorted.component(part as u32).links();
        chain(&mut rows, orders[part].as_slice())?;
        chain_rest(&mut rows, orders[part].as_slice(), ends)?;
    }
    Ok(rows)
}

// An arc from each link of the order to the one before it.
fn chain(rows: &mut Rows, order: &[u32]) -> Made<()>
    requires { All (λ l. l < length rows.old) order.now }
    ensures count { length rows.new ≡ length rows.old }
    ensures arcs { OnOk result (Adds (HasArc rows.old) (IsNextIn order.now) (HasArc rows.new)) }
{
    for place in 1..order.len() {
        rows.add_arc(order[place], order[place - 1])?;
    }
    Ok(())
}

// An arc to the last link of the order from each link that is not in it.
fn chain_rest(rows: &mut Rows, order: &[u32], ends: &[u32]) -> Made<()>
    requires order { All (λ l. l < length rows.old) order.now }
    requires ends { All (λ l. l < length rows.old) ends.now }
    ensures count { length rows.new ≡ length rows.old }
    ensures arcs { OnOk result (Adds (HasArc rows.old) (IsRestAfter order.now ends.now) (HasArc rows.new)) }
{
    let Some(last) = order.last() else {
        return Ok(());
    };
    for link in ends {
        rest_arc(rows, order, *link, *last)?;
    }
    Ok(())
}

// An arc from the link to the last one of the order, if the link is not in it.
fn rest_arc(rows: &mut Rows, order: &[u32], link: u32, last: u32) -> Made<()>
    requires link { link < length rows.old }
    requires last { last < length rows.old }
    ensures count { length rows.new ≡ length rows.old }
    ensures arcs { OnOk result (Adds (HasArc rows.old) (IsRest order.now link last) (HasArc rows.new)) }
{
    if contains(order, link) {
        return Ok(());
    }
    rows.add_arc(link, last)?;
    Ok(())
}

// Whether the number is in the list.
fn contains(numbers: &[u32], wanted: u32) -> bool
    ensures { result ≡ has numbers.now wanted }
{
    numbers.iter().any(|number| *number == wanted)
}
