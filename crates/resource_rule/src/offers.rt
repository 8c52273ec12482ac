//! What a user offers while it holds a resource.

ghost use Rattle.std.specs.Prelude.{◌≡◌, ◌<◌, ◌&&◌, ◌||◌, ℕ, IfOk, length, nat_eq};
ghost use Rattle.csp_base.specs.Prelude.{has, is_subset_of};
ghost use Rattle.csp_tables.specs.Part.{part_at};
ghost use Rattle.shape_links.specs.Setting.{node_of};
ghost use Rattle.resource_rule.specs.Uses.{HaveNodes, is_offered, is_offered_at};

use crate::user::User;
use csp_base::{EventSet, Made};
use std::alloc::Global;

impl<'a> User<'a> {
    // The events of the acceptances in the vocabulary at the pairs with the state 1.
    pub(crate) fn pair_offers(&self, alloc: Global, pairs: &[(u32, u32)]) -> Made<EventSet>
        requires { HaveNodes self.now.setting.now self.now.part pairs.now }
        ensures { IfOk result (λ events. (e : ℕ)
            → has events e ≡ is_offered_at self.now.setting.now self.now.part pairs.now e) }
    {
        let mut events = EventSet::new(alloc);
        for place in 0..pairs.len() {
            events = self.with_pair(alloc, pairs[place], events)?;
        }
        Ok(events)
    }

    // The events of the acceptances in the vocabulary at the node.
    pub(crate) fn node_offers(&self, alloc: Global, node: u32) -> Made<EventSet>
        requires node { node < length (part_at self.now.setting.now.shape.parts self.now.part).table }
        ensures { IfOk result (λ made. (e : ℕ) → has made e
            ≡ is_offered self.now.setting.now.shape.vocabulary
            (node_of self.now.setting.now self.now.part node).accept e) }
    {
        let component = self.setting.component(self.part);
        let vocabulary = self.setting.shape().vocabulary();
        with_offers(
            alloc,
            vocabulary,
            component.node(node).accept(),
            EventSet::new(alloc),
        )
    }

    // The events, and what is offered at the pair if its state is 1.
    fn with_pair(&self, alloc: Global, pair: (u32, u32), events: EventSet) -> Made<EventSet>
        requires node { pair.0 < length (part_at self.now.setting.now.shape.parts self.now.part).table }
        ensures { IfOk result (λ made. (e : ℕ) → has made e ≡ (has events e
            || (nat_eq pair.1 1 && is_offered self.now.setting.now.shape.vocabulary
            (node_of self.now.setting.now self.now.part pair.0).accept e))) }
    {
        let (node, state) = pair;
        if state != 1 {
            return Ok(events);
        }
        let component = self.setting.component(self.part);
        let vocabulary = self.setting.shape().vocabulary();
        with_offers(alloc, vocabulary, component.node(node).accept(), events)
    }
}

// The events, and those of the acceptances that lie in the vocabulary.
fn with_offers(
    alloc: Global,
    vocabulary: &EventSet,
    accept: &[EventSet],
    events: EventSet,
) -> Made<EventSet>
    ensures { IfOk result (λ made. (e : ℕ) → has made e ≡ (has events e || is_offered vocabulary.now accept.now e)) }
{
    let mut made = events;
    for set in accept {
        made = with_set(alloc, vocabulary, set, made)?;
    }
    Ok(made)
}

// The events, and those of the set if it lies in the vocabulary.
fn with_set(
    alloc: Global,
    vocabulary: &EventSet,
    set: &EventSet,
    events: EventSet,
) -> Made<EventSet>
    ensures { IfOk result (λ made. (e : ℕ) → has made e
        ≡ (has events e || (is_subset_of set.now vocabulary.now && has set.now e))) }
{
    if !set.is_subset(vocabulary) {
        return Ok(events);
    }
    if set.is_subset(&events) {
        return Ok(events);
    }
    events.union(alloc, set)
}
