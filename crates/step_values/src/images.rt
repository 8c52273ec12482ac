//! The events that an event becomes.

ghost use Rattle.std.specs.Prelude.{◌≡◌, ◌∷◌, ◌++◌, [], if◌then◌else◌, ℕ, nat_eq, IfOk, OnOk};
ghost use Rattle.step_values.specs.Images.{becomes, kept_for, Keeps};

use containers::Items;
use csp_base::{Event, Made, NoMemory};
use std::alloc::Global;
use std::collections::HashMap;

/// What events become by a renaming: for each event that it names the new ones, in the order in which it names them.
pub struct Images {
    by_event: HashMap<u32, Items<Event>>,
}

impl Drop for Images {
    fn drop(self) {
        let Images { by_event } = self;
    }
}

// The events that are kept for an event, which are taken out.
fn take_out(alloc: Global, by_event: &mut HashMap<u32, Items<Event>>, event: Event) -> Items<Event>
    ensures events { result ≡ kept_for by_event.old event }
    ensures others { (e : ℕ) → kept_for by_event.new e ≡ (if nat_eq event e then [] else kept_for by_event.old e) }
{
    match by_event.remove(&event.0) {
        Some(events) => events,
        None => Items::new(alloc),
    }
}

// Keeps these events for an event.
fn keep(by_event: &mut HashMap<u32, Items<Event>>, event: Event, events: Items<Event>) -> Made<()>
    ensures { OnOk result ((e : ℕ) → kept_for by_event.new e
        ≡ (if nat_eq event e then events else kept_for by_event.old e)) }
{
    match by_event.insert(event.0, events) {
        Ok(_) => Ok(()),
        Err(_) => Err(NoMemory),
    }
}

// Keeps the new event of a pair, after those that are kept for the old one.
fn add_new(
    alloc: Global,
    by_event: &mut HashMap<u32, Items<Event>>,
    old: Event,
    new: Event,
) -> Made<()>
    ensures { OnOk result ((e : ℕ) → kept_for by_event.new e
        ≡ kept_for by_event.old e ++ (if nat_eq old e then new ∷ [] else [])) }
{
    let mut events = take_out(alloc, by_event, old);
    events.push(new)?;
    keep(by_event, old, events)
}

/// What events become by the renaming that makes these pairs of an old event and a new one.
pub fn images_by_event(alloc: Global, renamed: &[(Event, Event)]) -> Made<Images>
    ensures { IfOk result (λ made. Keeps made renamed.now) }
{
    let mut images = Images {
        by_event: HashMap::new(alloc),
    };
    for pair in renamed {
        add_new(alloc, &mut images.by_event, pair.0, pair.1)?;
    }
    Ok(images)
}

// One event.
fn only(alloc: Global, event: Event) -> Made<Items<Event>>
    ensures { IfOk result (λ made. made ≡ event ∷ []) }
{
    let mut events = Items::new(alloc);
    events.push(event)?;
    Ok(events)
}

// The events that are kept for an event.
fn events_for(images: &Images, event: Event) -> &[Event]
    ensures { result.now ≡ kept_for images.now.by_event event }
{
    match images.by_event.get(&event.0) {
        Some(events) => events.as_slice(),
        None => &[],
    }
}

/// What an event becomes.
pub fn images_of(alloc: Global, images: &Images, event: Event) -> Made<Items<Event>>
    ensures { IfOk result (λ made. made ≡ becomes images.now event) }
{
    let events = events_for(images, event);
    match events.split_first() {
        None => only(alloc, event),
        Some(_) => {
            let made = Items::from_slice(alloc, events)?;
            Ok(made)
        }
    }
}
