//! Which resources a user holds while it offers to acquire others.

ghost use Rattle.std.specs.Prelude.{◌≡◌, ◌<◌, ℕ, IfOk, IsTrue, OnOk, length};
ghost use Rattle.csp_tables.specs.Prelude.{is_end, part_at};
ghost use Rattle.design_rules.specs.Resource.{IsHeldWhile};
ghost use Rattle.digraph.specs.Prelude.{HasArc};
ghost use Rattle.resource_rule.specs.Holdings.{AddsArcs, AreHeld, HoldsWhile, OffersWhile};
ghost use Rattle.resource_rule.specs.Uses.{WatchesLink};
ghost use Rattle.shape_links.specs.Setting.{KeepKinds};

use crate::link_sets::resource_arcs;
use crate::user::User;
use csp_base::{Event, EventSet, Made};
use digraph::Rows;
use observed_runs::{Explored, Parity};
use shape_links::{Setting, empty_sets};
use std::alloc::Global;

// An arc from each resource to each one that a user holds while it offers to acquire the first.
pub(crate) fn holdings(alloc: Global, setting: &Setting<'_>) -> Made<Rows>
    requires { KeepKinds setting.now }
    ensures count { IfOk result (λ rows. length rows ≡ length setting.now.shape.parts) }
    ensures sound { IfOk result (λ rows. (j m : ℕ) → HasArc rows j m
        → IsHeldWhile setting.now.shape setting.now.uses m j) }
    ensures complete { IfOk result (λ rows. (j m : ℕ) → IsHeldWhile setting.now.shape setting.now.uses m j
        → HasArc rows j m) }
{
    let _form = setting.shape();
    let mut sets = empty_sets(alloc, setting.shape().links().len())?;
    for part in 0..setting.count() {
        add_part(alloc, setting, part, &mut sets)?;
    }
    resource_arcs(alloc, setting, sets.as_slice())
}

// Adds to the set of each link those that the part holds while it offers to acquire the first one's resource.
fn add_part(alloc: Global, setting: &Setting<'_>, part: u32, sets: &mut [EventSet]) -> Made<()>
    requires part { part < length setting.now.shape.parts }
    requires count { length sets.old ≡ length setting.now.shape.links }
    ensures { OnOk result (AddsArcs (HoldsWhile setting.now part) sets.old sets.new) }
{
    if setting.uses(part).is_resource() {
        return Ok(());
    }
    let user = User {
        setting: &*setting,
        part,
    };
    match user.held_links(alloc)? {
        Some(held) => user.add_nodes(alloc, held.as_slice(), sets),
        None => user.add_links(alloc, sets),
    }
}

impl<'a> User<'a> {
    // The same for a user whose nodes tell what it holds there.
    fn add_nodes(&self, alloc: Global, held: &[EventSet], sets: &mut [EventSet]) -> Made<()>
        requires held { AreHeld self.now.setting.now self.now.part held.now }
        requires count { length sets.old ≡ length self.now.setting.now.shape.links }
        ensures { OnOk result (AddsArcs (HoldsWhile self.now.setting.now self.now.part) sets.old sets.new) }
    {
        let _form = self.setting.shape();
        for node in 0..held.len() {
            self.add_node(alloc, node as u32, &held[node], sets)?;
        }
        Ok(())
    }

    // Adds what is held to the sets of the links of which the part offers to acquire the resource at this node.
    fn add_node(&self, alloc: Global, node: u32, held: &EventSet, sets: &mut [EventSet]) -> Made<()>
        requires node { node < length (part_at self.now.setting.now.shape.parts self.now.part).table }
        requires count { length sets.old ≡ length self.now.setting.now.shape.links }
        ensures { OnOk result
            (AddsArcs (OffersWhile self.now.setting.now self.now.part node held.now) sets.old sets.new) }
    {
        if held.is_empty() {
            return Ok(());
        }
        let offers = self.node_offers(alloc, node)?;
        self.add_held(alloc, &offers, held, sets)
    }

    // The same for a user, link by link.
    fn add_links(&self, alloc: Global, sets: &mut [EventSet]) -> Made<()>
        requires count { length sets.old ≡ length self.now.setting.now.shape.links }
        ensures { OnOk result (AddsArcs (HoldsWhile self.now.setting.now self.now.part) sets.old sets.new) }
    {
        for link in self.links() {
            self.add_link(alloc, *link, sets)?;
        }
        Ok(())
    }

    // Adds the link to the sets of those of which the user offers to acquire the resource while it holds this one's.
    fn add_link(&self, alloc: Global, link: u32, sets: &mut [EventSet]) -> Made<()>
        requires link { link < length self.now.setting.now.shape.links }
        requires end { IsTrue (is_end self.now.setting.now.shape self.now.part link) }
        requires count { length sets.old ≡ length self.now.setting.now.shape.links }
        ensures { OnOk result
            (AddsArcs (λ k l. (link ≡ l) × HoldsWhile self.now.setting.now self.now.part k l) sets.old sets.new) }
    {
        let _form = self.setting.shape();
        let explored = self.link_explored(alloc, link)?;
        let offers = self.pair_offers(alloc, explored.pairs())?;
        let held = EventSet::from_events(alloc, &[Event(link)])?;
        self.add_held(alloc, &offers, &held, sets)
    }

    // The exploration of a part with the parity of a link.
    fn link_explored(&self, alloc: Global, link: u32) -> Made<Explored>
        requires link { link < length self.now.setting.now.shape.links }
        ensures { IfOk result (λ explored. WatchesLink self.now.setting.now self.now.part link explored.pairs) }
    {
        let _form = self.setting.shape();
        let parity = Parity::new(self.setting.link(link).shared());
        self.setting.component(self.part).explore(alloc, &parity)
    }
}
