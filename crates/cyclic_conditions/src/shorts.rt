//! The first node of each end of each link that falls short.

ghost use Rattle.std.specs.Prelude.{◌≡◌, ◌<◌, ◌+◌, ℕ, Some, IfOk, length, slice_set, unwrap_or};
ghost use Rattle.design_rules.specs.Prelude.{AllKeepPlaces};
ghost use Rattle.cyclic_conditions.specs.Shorts.{AreAllShorts, AreShorts, Before, IsAcceptance, IsShort, short_at};
ghost use Rattle.shape_links.specs.Component.{table_of};
ghost use Rattle.shape_links.specs.Links.{IsOnOne};

use csp_base::{Event, EventSet, Made};
use shape_links::{Component, SortedShape};
use std::alloc::Global;

// For each link the first node of its left end and the first one of its right end that falls short.
#[derive(Drop)]
pub(crate) struct Shorts {
    pub(crate) left: Vec<Option<u32>>,
    pub(crate) right: Vec<Option<u32>>,
}

// The first nodes of all ends that fall short.
pub(crate) fn find_shorts(alloc: Global, sorted: &SortedShape<'_>) -> Made<Shorts>
    requires { AllKeepPlaces sorted.now }
    ensures { IfOk result (AreAllShorts sorted.now) }
{
    let count = sorted.shape().links().len();
    let left = vec![in alloc; None; count]?;
    let right = vec![in alloc; None; count]?;
    let mut shorts = Shorts { left, right };
    mark_all(sorted, &mut shorts);
    Ok(shorts)
}

// Marks the ends that fall short.
fn mark_all(sorted: &SortedShape<'_>, shorts: &mut Shorts)
    requires keep { AllKeepPlaces sorted.now }
    requires shorts { AreShorts sorted.now (Before 0 0 0) shorts.old }
    ensures { AreAllShorts sorted.now shorts.new }
{
    for part in 0..sorted.shape().parts().len() {
        mark_component(&sorted.component(part as u32), shorts);
    }
}

// Marks the ends that the component is and that fall short.
fn mark_component(component: &Component<'_>, shorts: &mut Shorts)
    requires keep { AllKeepPlaces component.now.shape.now }
    requires shorts { AreShorts component.now.shape.now (Before component.now.number 0 0) shorts.old }
    ensures { AreShorts component.now.shape.now (Before (component.now.number + 1) 0 0) shorts.new }
{
    for node in 0..component.table().nodes().len() {
        mark_node(component, node as u32, shorts);
    }
}

// Marks those that fall short by an acceptance of the node.
fn mark_node(component: &Component<'_>, node: u32, shorts: &mut Shorts)
    requires node { node < length (table_of component.now) }
    requires keep { AllKeepPlaces component.now.shape.now }
    requires shorts { AreShorts component.now.shape.now (Before component.now.number node 0) shorts.old }
    ensures { AreShorts component.now.shape.now (Before component.now.number (node + 1) 0) shorts.new }
{
    for place in 0..component.node(node).accept().len() {
        mark_set(component, node, place, shorts);
    }
}

// Marks the one that falls short by the acceptance in this place, if there is one.
fn mark_set(component: &Component<'_>, node: u32, place: usize, shorts: &mut Shorts)
    requires at { IsAcceptance component.now.shape.now component.now.number node place }
    requires keep { AllKeepPlaces component.now.shape.now }
    requires shorts { AreShorts component.now.shape.now (Before component.now.number node place) shorts.old }
    ensures { AreShorts component.now.shape.now (Before component.now.number node (place + 1)) shorts.new }
{
    let set = &component.node(node).accept()[place];
    let Some(link) = short_link(component.shape, set) else {
        return;
    };
    if component.shape.link(link).left() == component.number {
        mark(&mut shorts.left, link as usize, node);
    } else {
        mark(&mut shorts.right, link as usize, node);
    }
}

// Keeps the node for the link, where none is kept yet.
fn mark(nodes: &mut [Option<u32>], link: usize, node: u32)
    requires { link < length nodes.old }
    ensures { nodes.new ≡ slice_set nodes.old link (Some (unwrap_or (short_at nodes.old link) node)) }
{
    nodes[link] = Some(nodes[link].unwrap_or(node));
}

// The link of which the set has some events and not all, where the set lies in the vocabulary.
fn short_link(sorted: &SortedShape<'_>, set: &EventSet) -> Option<u32>
    ensures short { (l : ℕ) → result ≡ Some l → IsShort sorted.now l set.now }
    ensures all { (l : ℕ) → IsOnOne sorted.now set.now → IsShort sorted.now l set.now → result ≡ Some l }
{
    let shape = sorted.shape();
    if !set.is_subset(shape.vocabulary()) {
        return None;
    }
    let event = set.first_from(Event(0))?;
    let link = sorted.owner(event)?;
    if sorted.link(link).shared().is_subset(set) {
        return None;
    }
    Some(link)
}
