//! The events that parts share, sorted out by the left one of the parts.

ghost use Rattle.std.specs.Prelude.{◌≡◌, ◌<◌, ◌≤◌, ◌==◌, ◌++◌, ℕ, Some, IfOk, OnOk, length, if◌then◌else◌};
ghost use Rattle.dl_limits.specs.declared.TheConstants.{MOST_COMPONENTS};
ghost use Rattle.csp_base.specs.Members.{has};
ghost use Rattle.csp_tables.specs.Part.{TripleDisjoint, alphabets_of};
ghost use Rattle.network_stages.specs.Rows.{AreOwners, AreRows, joint, joints, owner_of, row_at};

use containers::{Items, empty_rows, push_at};
use csp_base::{Event, EventSet, Made};
use csp_tables::Part;
use std::alloc::Global;

// For each part the events that it shares with later parts, each with the later part. Goes over each alphabet twice.
pub(crate) fn shared_rows(alloc: Global, parts: &[Part]) -> Made<Vec<Items<(u32, Event)>>>
    requires most { length parts.now ≤ MOST_COMPONENTS }
    requires apart { TripleDisjoint (alphabets_of parts.now) }
    ensures { IfOk result (λ rows. AreRows parts.now (length parts.now) rows.items) }
{
    let mut rows = empty_rows(alloc, parts.len())?;
    let mut owners = Vec::new(alloc);
    join_parts(&mut owners, &mut rows, parts)?;
    Ok(rows)
}

// Notes for each part the events that it shares with later ones.
fn join_parts(
    owners: &mut Vec<Option<u32>>,
    rows: &mut Vec<Items<(u32, Event)>>,
    parts: &[Part],
) -> Made<()>
    requires most { length parts.now ≤ MOST_COMPONENTS }
    requires apart { TripleDisjoint (alphabets_of parts.now) }
    requires owners { AreOwners parts.now 0 owners.old.items }
    requires rows { AreRows parts.now 0 rows.old.items }
    ensures { OnOk result (AreRows parts.now (length parts.now) rows.new.items) }
{
    for (place, part) in parts.iter().enumerate() {
        join_all(owners, rows, place as u32, part.alphabet())?;
        own_all(owners, part.alphabet(), place as u32)?;
    }
    Ok(())
}

// Notes for each of the events that the part shares it with the event's owner, if it has one.
fn join_all(
    owners: &[Option<u32>],
    rows: &mut Vec<Items<(u32, Event)>>,
    part: u32,
    events: &EventSet,
) -> Made<()>
    requires { (e i : ℕ) → owner_of owners.now e ≡ Some i → i < length rows.old.items }
    ensures count { OnOk result (length rows.new.items ≡ length rows.old.items) }
    ensures joined { OnOk result ((i : ℕ) → row_at rows.new.items i
        ≡ row_at rows.old.items i ++ joints owners.now part i events.now) }
{
    for event in events.iter() {
        join(owners, rows, part, event)?;
    }
    Ok(())
}

// Notes that the part shares the event with the event's owner, if it has one.
fn join(
    owners: &[Option<u32>],
    rows: &mut Vec<Items<(u32, Event)>>,
    part: u32,
    event: Event,
) -> Made<()>
    requires { (e i : ℕ) → owner_of owners.now e ≡ Some i → i < length rows.old.items }
    ensures count { OnOk result (length rows.new.items ≡ length rows.old.items) }
    ensures joined { OnOk result ((i : ℕ) → row_at rows.new.items i
        ≡ row_at rows.old.items i ++ joint owners.now part i event) }
{
    match owner_at(owners, event) {
        Some(left) => {
            push_at(rows, left as usize, (part, event))?;
            Ok(())
        }
        None => Ok(()),
    }
}

// The owner that is kept for the event.
fn owner_at(owners: &[Option<u32>], event: Event) -> Option<u32>
    ensures { result ≡ owner_of owners.now event }
{
    match owners.get(event.0 as usize) {
        Some(owner) => *owner,
        None => None,
    }
}

// Keeps the part as the owner of each of the events.
fn own_all(owners: &mut Vec<Option<u32>>, events: &EventSet, part: u32) -> Made<()>
    ensures { OnOk result ((e : ℕ) → owner_of owners.new.items e
        ≡ (if has events.now e then Some part else owner_of owners.old.items e)) }
{
    for event in events.iter() {
        keep_owner(owners, event.0 as usize, part)?;
    }
    Ok(())
}

// Keeps the part as the owner of the event.
fn keep_owner(owners: &mut Vec<Option<u32>>, event: usize, part: u32) -> Made<()>
    ensures { OnOk result ((e : ℕ) → owner_of owners.new.items e
        ≡ (if event == e then Some part else owner_of owners.old.items e)) }
{
    while owners.len() <= event {
        owners.push(None)?;
    }
    owners[event] = Some(part);
    Ok(())
}
