//! What components have in common that are equal up to the numbers of their events, as a list of numbers.

ghost use Rattle.std.specs.Prelude.{◌≡◌, ◌++◌, ℕ, IfOk, OnOk, slice_index};
ghost use Rattle.conformance.specs.Keys.{IsKey, IsOneToOne, listed, node_code, set_code, step_code, table_code};

use containers::Items;
use csp_base::{Event, EventSet, Made};
use csp_tables::{NormNode, Part};
use std::alloc::Global;

// Both tables, with the place that each event has in the alphabet.
pub(crate) fn key_of(alloc: Global, part: &Part, specified: &Part) -> Made<Items<usize>>
    ensures { IfOk result (IsKey part.now specified.now) }
{
    let places = places_of(alloc, part.alphabet())?;
    let mut key = Items::new(alloc);
    add_table(alloc, &mut key, part, &places)?;
    add_table(alloc, &mut key, specified, &places)?;
    Ok(key)
}

// At the number of each event of the alphabet its place there.
fn places_of(alloc: Global, alphabet: &EventSet) -> Made<Vec<usize>>
    ensures { IfOk result (λ places. IsOneToOne alphabet.now (slice_index places.items)) }
{
    let events = events_of(alloc, alphabet)?;
    let mut places = Vec::new(alloc);
    for place in 0..events.len() {
        put(&mut places, events.as_slice()[place], place)?;
    }
    Ok(places)
}

// Puts the place at the number of the event.
fn put(places: &mut Vec<usize>, event: Event, place: usize) -> Made<()>
    ensures put { OnOk result (slice_index places.new.items event ≡ place) }
    ensures others { OnOk result ((e : ℕ) → (e ≡ event → ⊥) → slice_index places.new.items e
        ≡ slice_index places.old.items e) }
{
    while places.len() <= event.0 as usize {
        places.push(0)?;
    }
    places[event.0 as usize] = place;
    Ok(())
}

// The members of the set.
fn events_of(alloc: Global, set: &EventSet) -> Made<Items<Event>>
    ensures { IfOk result (λ events. events ≡ set.now) }
{
    let mut events = Items::new(alloc);
    for event in set.iter() {
        events.push(event)?;
    }
    Ok(events)
}

// Each of these puts what it codes at the end of the key.
fn add_table(alloc: Global, key: &mut Items<usize>, part: &Part, places: &[usize]) -> Made<()>
    ensures { OnOk result (key.new ≡ key.old ++ table_code (slice_index places.now) part.now.table) }
{
    let nodes = part.table().nodes();
    key.push(nodes.len())?;
    for node in nodes {
        add_node(alloc, key, node, places)?;
    }
    Ok(())
}

fn add_node(alloc: Global, key: &mut Items<usize>, node: &NormNode, places: &[usize]) -> Made<()>
    ensures { OnOk result (key.new ≡ key.old ++ node_code (slice_index places.now) node.now) }
{
    add_steps(key, node.next(), places)?;
    add_sets(alloc, key, node.accept(), places)
}

fn add_steps(key: &mut Items<usize>, steps: &[(Event, u32)], places: &[usize]) -> Made<()>
    ensures { OnOk result (key.new ≡ key.old ++ listed (step_code (slice_index places.now)) steps.now) }
{
    key.push(steps.len())?;
    for (event, target) in steps {
        key.push(place_of(places, *event))?;
        key.push(*target as usize)?;
    }
    Ok(())
}

fn add_sets(alloc: Global, key: &mut Items<usize>, sets: &[EventSet], places: &[usize]) -> Made<()>
    ensures { OnOk result (key.new ≡ key.old ++ listed (set_code (slice_index places.now)) sets.now) }
{
    key.push(sets.len())?;
    for set in sets {
        add_set(alloc, key, set, places)?;
    }
    Ok(())
}

fn add_set(alloc: Global, key: &mut Items<usize>, set: &EventSet, places: &[usize]) -> Made<()>
    ensures { OnOk result (key.new ≡ key.old ++ set_code (slice_index places.now) set.now) }
{
    let events = events_of(alloc, set)?;
    key.push(events.len())?;
    for event in events.as_slice() {
        key.push(place_of(places, *event))?;
    }
    Ok(())
}

// What stands at the number of the event, 0 past the end.
fn place_of(places: &[usize], event: Event) -> usize
    ensures { result ≡ slice_index places.now event }
{
    match places.get(event.0 as usize) {
        Some(place) => *place,
        None => 0,
    }
}
