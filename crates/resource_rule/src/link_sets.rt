//! Sets of links, one for each link: how they come about, and the arcs between resources that they give.

ghost use Rattle.std.specs.Prelude.{◌≡◌, ◌<◌, ◌&&◌, ◌||◌, [], ℕ, Some, true, IfOk, IsTrue, OnOk, length, nat_eq, replicate};
ghost use Rattle.std.specs.List.{list_any};
ghost use Rattle.csp_base.specs.Members.{has};
ghost use Rattle.digraph.specs.Prelude.{HasArc, has_arc};
ghost use Rattle.resource_rule.specs.Holdings.{AddsArcs, LeadsToSome, is_acquiring, resource_of};

use crate::user::User;
use csp_base::{Event, EventSet, Made};
use digraph::Rows;
use shape_links::Setting;
use std::alloc::Global;

impl<'a> User<'a> {
    // Adds what is held to the set of each link of which one of the events acquires the resource.
    pub(crate) fn add_held(
        &self,
        alloc: Global,
        offers: &EventSet,
        held: &EventSet,
        sets: &mut [EventSet],
    ) -> Made<()>
        requires { length sets.old ≡ length self.now.setting.now.shape.links }
        ensures count { length sets.new ≡ length sets.old }
        ensures arcs { OnOk result ((k l : ℕ) → has_arc sets.new k l
            ≡ (has_arc sets.old k l || (list_any (is_acquiring self.now.setting.now k) offers.now && has held.now l))) }
    {
        for event in offers.iter() {
            self.add_if_acquiring(alloc, event, held, sets)?;
        }
        Ok(())
    }

    // Adds what is held to the set of the link of which the event acquires the resource.
    fn add_if_acquiring(
        &self,
        alloc: Global,
        event: Event,
        held: &EventSet,
        sets: &mut [EventSet],
    ) -> Made<()>
        requires { length sets.old ≡ length self.now.setting.now.shape.links }
        ensures count { length sets.new ≡ length sets.old }
        ensures arcs { OnOk result ((k l : ℕ) → has_arc sets.new k l
            ≡ (has_arc sets.old k l || (is_acquiring self.now.setting.now k event && has held.now l))) }
    {
        let Some(link) = acquiring_link(self.setting, event) else {
            return Ok(());
        };
        add_members(alloc, sets, link, held)
    }
}

// Adds the members of a set to the set in the place.
fn add_members(alloc: Global, sets: &mut [EventSet], place: u32, more: &EventSet) -> Made<()>
    requires { place < length sets.old }
    ensures count { length sets.new ≡ length sets.old }
    ensures arcs { OnOk result ((k l : ℕ) → has_arc sets.new k l
        ≡ (has_arc sets.old k l || (nat_eq place k && has more.now l))) }
{
    let set = &sets[place as usize];
    if more.is_subset(set) {
        return Ok(());
    }
    let all = set.union(alloc, more)?;
    sets[place as usize] = all;
    Ok(())
}

// An arc from the resource of each link to those of the links in its set.
pub(crate) fn resource_arcs(alloc: Global, setting: &Setting<'_>, sets: &[EventSet]) -> Made<Rows>
    requires count { length sets.now ≡ length setting.now.shape.links }
    requires within { (k l : ℕ) → HasArc sets.now k l → l < length setting.now.shape.links }
    ensures { IfOk result (AddsArcs (LeadsToSome setting.now sets.now)
        (replicate (length setting.now.shape.parts) [])) }
{
    let links = setting.shape().links();
    let mut rows = Rows::new(alloc, setting.count())?;
    for link in 0..links.len() {
        add_row(setting, link as u32, &sets[link], &mut rows)?;
    }
    Ok(rows)
}

// An arc from the resource of the link to those of the links in the set.
fn add_row(setting: &Setting<'_>, link: u32, held: &EventSet, rows: &mut Rows) -> Made<()>
    requires link { link < length setting.now.shape.links }
    requires within { (l : ℕ) → IsTrue (has held.now l) → l < length setting.now.shape.links }
    requires count { length rows.old ≡ length setting.now.shape.parts }
    ensures count { length rows.new ≡ length rows.old }
    ensures arcs { OnOk result ((j m : ℕ) → has_arc rows.new j m ≡ (has_arc rows.old j m
        || (nat_eq (resource_of setting.now link) j
        && list_any (λ l. nat_eq (resource_of setting.now l) m) held.now))) }
{
    let from = resource_end(setting, link);
    for event in held.iter() {
        add_arc(setting, from, event, rows)?;
    }
    Ok(())
}

// An arc to the resource of the link with this number.
fn add_arc(setting: &Setting<'_>, from: u32, link: Event, rows: &mut Rows) -> Made<()>
    requires from { from < length rows.old }
    requires link { link < length setting.now.shape.links }
    requires count { length rows.old ≡ length setting.now.shape.parts }
    ensures count { length rows.new ≡ length rows.old }
    ensures arcs { OnOk result ((j m : ℕ) → has_arc rows.new j m
        ≡ (has_arc rows.old j m || (nat_eq from j && nat_eq (resource_of setting.now link) m))) }
{
    let to = resource_end(setting, link.0);
    rows.add_arc(from, to)?;
    Ok(())
}

// The end of the link that is a resource.
fn resource_end(setting: &Setting<'_>, link: u32) -> u32
    requires { link < length setting.now.shape.links }
    ensures value { result ≡ resource_of setting.now link }
    ensures within { result < length setting.now.shape.parts }
{
    let _form = setting.shape();
    let ends = setting.link(link);
    let left = ends.left();
    if setting.uses(left).is_resource() {
        return left;
    }
    ends.right()
}

// The link of the event, if the event acquires its resource.
fn acquiring_link(setting: &Setting<'_>, event: Event) -> Option<u32>
    ensures within { (k : ℕ) → result ≡ Some k → k < length setting.now.shape.links }
    ensures found { (k : ℕ) → result ≡ Some k → is_acquiring setting.now k event ≡ true }
    ensures owned { (k : ℕ) → is_acquiring setting.now k event ≡ true → result ≡ Some k }
{
    let link = setting.owner(event)?;
    let uses = setting.uses(resource_end(setting, link));
    if uses.acquire().contains(event) {
        return Some(link);
    }
    None
}
