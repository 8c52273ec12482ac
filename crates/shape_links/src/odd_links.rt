//! Of which links a component has done an odd number of events, where the node at which it stands tells it.

ghost use Rattle.std.specs.Prelude.{◌≡◌, ◌<◌, ℕ, true, not, ◌&&◌, nat_eq, IfOk, IfSome, IsTrue, length, get_or, [], if◌then◌else◌, replicate};
ghost use Rattle.csp_base.specs.Prelude.{has};
ghost use Rattle.csp_tables.specs.Prelude.{is_possible, node_after, node_at};
ghost use Rattle.observed_runs.specs.Prelude.{pair_at};
ghost use Rattle.shape_links.specs.Component.{table_of};
ghost use Rattle.shape_links.specs.OddLinks.{AreOddLinks, IsTurned};

use crate::component::Component;
use csp_base::{Event, EventSet, Made};
use observed_runs::{Explored, Unwatched};
use std::alloc::Global;

impl<'a> Component<'a> {
    /// For each node those of the watched links (by their numbers) of which each run to it has an odd number of events; nothing
    /// where runs to one node differ in that. It goes over each step once, and keeps a set for each node.
    pub fn odd_links(&self, alloc: Global, watched: &EventSet) -> Made<Option<Vec<EventSet>>>
        ensures { IfOk result (λ odd. IfSome odd (λ sets. AreOddLinks self.now watched.now sets.items)) }
    {
        let _form = self.shape.shape();
        let explored = self.explore(alloc, &Unwatched)?;
        let odd = self.odd_by_origins(alloc, watched, &explored)?;
        if self.are_kept(alloc, watched, &odd)? {
            return Ok(Some(odd));
        }
        Ok(None)
    }

    // For each node the watched links of which the run by which it was found has an odd number of events.
    fn odd_by_origins(
        &self,
        alloc: Global,
        watched: &EventSet,
        explored: &Explored,
    ) -> Made<Vec<EventSet>>
        requires { (k : ℕ) → k < length explored.now.pairs
            → (pair_at explored.now.pairs k).0 < length (table_of self.now) }
        ensures { IfOk result (λ odd. length odd.items ≡ length (table_of self.now)) }
    {
        let mut odd = empty_sets(alloc, self.table().nodes().len())?;
        let pairs = explored.pairs();
        for place in 1..pairs.len() {
            let (from, event) = explored.origin(place);
            let set = self.set_after(alloc, watched, &odd[pairs[from].0 as usize], event)?;
            odd[pairs[place].0 as usize] = set;
        }
        Ok(odd)
    }

    // Whether the set of the first node is empty, and each step leads to the set that it makes of its node's.
    fn are_kept(&self, alloc: Global, watched: &EventSet, odd: &[EventSet]) -> Made<bool>
        requires { length odd.now ≡ length (table_of self.now) }
        ensures { IfOk result (λ kept. kept ≡ true → AreOddLinks self.now watched.now odd.now) }
    {
        let _form = self.shape.shape();
        let _part = self.part();
        if !odd[0].is_empty() {
            return Ok(false);
        }
        for node in 0..odd.len() {
            if !self.is_kept_from(alloc, watched, odd, node as u32)? {
                return Ok(false);
            }
        }
        Ok(true)
    }

    // Whether each step from the node leads to the set that it makes of the node's.
    fn is_kept_from(
        &self,
        alloc: Global,
        watched: &EventSet,
        odd: &[EventSet],
        node: u32,
    ) -> Made<bool>
        requires sets { length odd.now ≡ length (table_of self.now) }
        requires node { node < length (table_of self.now) }
        ensures { IfOk result (λ kept. kept ≡ true → (e : ℕ)
            → IsTrue (is_possible (node_at (table_of self.now) node).next e)
            → IsTurned self.now.shape.now watched.now e (get_or odd.now node [])
            (get_or odd.now (node_after (table_of self.now) node e) [])) }
    {
        let _form = self.shape.shape();
        let steps = self.steps(node);
        for (event, target) in steps {
            let set = self.set_after(alloc, watched, &odd[node as usize], *event)?;
            if set != odd[*target as usize] {
                return Ok(false);
            }
        }
        Ok(true)
    }

    // The set after one event more.
    fn set_after(
        &self,
        alloc: Global,
        watched: &EventSet,
        odd: &EventSet,
        event: Event,
    ) -> Made<EventSet>
        ensures { IfOk result (λ made. IsTurned self.now.shape.now watched.now event odd.now made) }
    {
        let _form = self.shape.shape();
        match self.shape.owner(event) {
            Some(link) => toggle_if_watched(alloc, watched, odd, Event(link)),
            None => odd.try_clone(alloc),
        }
    }
}

/// So many empty sets of links.
pub fn empty_sets(alloc: Global, count: usize) -> Made<Vec<EventSet>>
    ensures count { IfOk result (λ sets. length sets.items ≡ count) }
    ensures empty { IfOk result (λ sets. sets.items ≡ replicate count []) }
{
    let mut sets = Vec::new(alloc);
    for _ in 0..count {
        sets.push(EventSet::new(alloc))?;
    }
    Ok(sets)
}

// The set without the link, or with it where it is no member, if the link is watched.
fn toggle_if_watched(
    alloc: Global,
    watched: &EventSet,
    odd: &EventSet,
    link: Event,
) -> Made<EventSet>
    ensures { IfOk result (λ made. (l : ℕ) → has made l
        ≡ (if has watched.now l && nat_eq link l then not (has odd.now l) else has odd.now l)) }
{
    if watched.contains(link) {
        return toggle(alloc, odd, link);
    }
    odd.try_clone(alloc)
}

// The set without its member, or with it where it is none.
fn toggle(alloc: Global, set: &EventSet, member: Event) -> Made<EventSet>
    ensures { IfOk result (λ made. (x : ℕ) → has made x
        ≡ (if nat_eq member x then not (has set.now x) else has set.now x)) }
{
    let one = EventSet::from_events(alloc, &[member])?;
    if set.contains(member) {
        return set.diff(alloc, &one);
    }
    set.union(alloc, &one)
}
