//! What is asked of a resource, at a node and in a state of its holder.

ghost use Rattle.std.specs.Prelude.{◌≡◌, ◌<◌, ◌-◌, ℕ, IfOk, length};
ghost use Rattle.std.specs.List.{list_all};
ghost use Rattle.csp_base.specs.Prelude.{inter_of};
ghost use Rattle.csp_tables.specs.Prelude.{link_at, part_at};
ghost use Rattle.resource_conditions.specs.Tests.{are_granted, are_grants, are_turns, is_turn};

use csp_base::{Event, EventSet, Made};
use shape_links::Setting;
use std::alloc::Global;

// Whether each event that is possible at the node is in turn.
pub(crate) fn turns_at(setting: &Setting<'_>, part: u32, node: u32, state: u32) -> bool
    requires part { part < length setting.now.shape.parts }
    requires node { node < length (part_at setting.now.shape.parts part).table }
    ensures { result ≡ are_turns setting.now part (node, state) }
{
    let component = setting.component(part);
    all_turns(setting, part, state, component.steps(node))
}

// Whether the event of each of the steps is in turn.
fn all_turns(setting: &Setting<'_>, part: u32, state: u32, steps: &[(Event, u32)]) -> bool
    requires { part < length setting.now.shape.parts }
    ensures { result ≡ list_all (λ (step : ℕ × ℕ). is_turn setting.now part state step.0) steps.now }
{
    steps
        .iter()
        .all(|(event, _)| turn(setting, part, state, *event))
}

// Whether the event is in turn.
fn turn(setting: &Setting<'_>, part: u32, state: u32, event: Event) -> bool
    requires { part < length setting.now.shape.parts }
    ensures { result ≡ is_turn setting.now part state event }
{
    if !setting.shape().vocabulary().contains(event) {
        return true;
    }
    let uses = setting.uses(part);
    if state == 0 {
        return uses.acquire().contains(event);
    }
    if !uses.release().contains(event) {
        return false;
    }
    match setting.shape().links().get(state as usize - 1) {
        Some(link) => link.shared().contains(event),
        None => false,
    }
}

// Whether each acceptance at the node grants all that it must.
pub(crate) fn grants_at(
    alloc: Global,
    setting: &Setting<'_>,
    part: u32,
    pair: (u32, u32),
) -> Made<bool>
    requires part { part < length setting.now.shape.parts }
    requires node { pair.0 < length (part_at setting.now.shape.parts part).table }
    ensures { IfOk result (λ granted. granted ≡ are_grants setting.now part pair) }
{
    let (node, state) = pair;
    let vocabulary = setting.shape().vocabulary();
    let component = setting.component(part);
    let accept = component.node(node).accept();
    let uses = setting.uses(part);
    if state == 0 {
        return Ok(all_grant(vocabulary, uses.acquire(), accept));
    }
    let wanted = on_link(alloc, setting, uses.release(), state - 1)?;
    Ok(all_grant(vocabulary, &wanted, accept))
}

// The events that are on the link in this place.
fn on_link(alloc: Global, setting: &Setting<'_>, events: &EventSet, link: u32) -> Made<EventSet>
    ensures { IfOk result (λ made. made ≡ inter_of events.now (link_at setting.now.shape link).shared) }
{
    match setting.shape().links().get(link as usize) {
        Some(link) => events.inter(alloc, link.shared()),
        None => Ok(EventSet::new(alloc)),
    }
}

// Whether each acceptance that lies in the vocabulary has all that is wanted.
fn all_grant(vocabulary: &EventSet, wanted: &EventSet, accept: &[EventSet]) -> bool
    ensures { result ≡ are_granted vocabulary.now wanted.now accept.now }
{
    accept
        .iter()
        .all(|set| !set.is_subset(vocabulary) || wanted.is_subset(set))
}
