//! The link that has each event.

ghost use Rattle.std.specs.Prelude.{◌≡◌, ◌<◌, ◌+◌, ◌==◌, ℕ, Some, IfOk, OnOk, slice_index, if◌then◌else◌};
ghost use Rattle.csp_base.specs.Members.{has};
ghost use Rattle.csp_tables.specs.Prelude.{TripleDisjoint, alphabets_of, IsWellFormed};
ghost use Rattle.csp_tables.specs.Shape.{Shape as ShapeValue};
ghost use Rattle.shape_links.specs.Links.{AreOwners, IsOwner};

use csp_base::{Event, EventSet, Made};
use csp_tables::Shape;
use std::alloc::Global;

/// For each event, by its number, 1 + the link that has it; 0, or past the end, where none has. It goes over each event of
/// each link once.
pub fn links_of_events(alloc: Global, shape: &Shape) -> Made<Vec<u32>>
    requires form { IsWellFormed shape.now }
    requires apart { TripleDisjoint (alphabets_of shape.now.parts) }
    ensures { IfOk result (λ owners. AreOwners shape.now owners.items) }
{
    let mut owners = Vec::new(alloc);
    for (l, link) in shape.links().iter().enumerate() {
        set_owners(&mut owners, link.shared(), l as u32 + 1)?;
    }
    Ok(owners)
}

/// The link that has the event.
pub fn link_of(owners: &[u32], event: Event) -> Option<u32>
    ensures found { (shape : ShapeValue) (l : ℕ) → AreOwners shape owners.now → result ≡ Some l
        → IsOwner shape l event }
    ensures owned { (shape : ShapeValue) (l : ℕ) → AreOwners shape owners.now → IsOwner shape l event
        → result ≡ Some l }
{
    let owner = owner_at(owners, event);
    if owner == 0 {
        return None;
    }
    Some(owner - 1)
}

// What is kept for the event.
fn owner_at(owners: &[u32], event: Event) -> u32
    ensures { result ≡ slice_index owners.now event }
{
    match owners.get(event.0 as usize) {
        Some(owner) => *owner,
        None => 0,
    }
}

// Keeps the number for each of the events.
fn set_owners(owners: &mut Vec<u32>, events: &EventSet, owner: u32) -> Made<()>
    ensures { OnOk result ((e : ℕ) → slice_index owners.new.items e
        ≡ (if has events.now e then owner else slice_index owners.old.items e)) }
{
    for event in events.iter() {
        set_owner(owners, event.0 as usize, owner)?;
    }
    Ok(())
}

// Keeps the number for the event.
fn set_owner(owners: &mut Vec<u32>, event: usize, owner: u32) -> Made<()>
    ensures { OnOk result ((e : ℕ) → slice_index owners.new.items e
        ≡ (if event == e then owner else slice_index owners.old.items e)) }
{
    while owners.len() <= event {
        owners.push(0)?;
    }
    owners[event] = owner;
    Ok(())
}
