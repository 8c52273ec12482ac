//! The links between parts, from the events that the parts share.

ghost use Rattle.std.specs.Prelude.{◌≡◌, ◌≢◌, ◌<◌, ◌≤◌, ◌+◌, ◌||◌, ◌++◌, ◌∷◌, [], ℕ, List, IfOk, OnOk, length};
ghost use Rattle.dl_limits.specs.declared.TheConstants.{MOST_COMPONENTS};
ghost use Rattle.csp_base.specs.Members.{has};
ghost use Rattle.csp_tables.specs.Part.{Part};
ghost use Rattle.network_stages.specs.Rows.{AreLinksBefore, AreRows, IsRow, IsVocabulary, any_has_event, has_event};
ghost use Rattle.observed_runs.specs.Observed.{pair_at};

use containers::Items;
use csp_base::{Event, EventSet, Made};
use csp_tables::Link;
use std::alloc::Global;

// The links of the parts whose rows these are, and the parts' vocabulary.
pub(crate) fn links_of_rows(
    alloc: Global,
    rows: &[Items<(u32, Event)>],
) -> Made<(Vec<Link>, EventSet)>
    requires few { length rows.now ≤ MOST_COMPONENTS }
    requires rows { (parts : List Part) × AreRows parts (length parts) rows.now }
    ensures links { (parts : List Part) → AreRows parts (length parts) rows.now
        → IfOk result (λ made. AreLinksBefore parts (length parts) 0 made.0.items) }
    ensures vocabulary { (parts : List Part) → AreRows parts (length parts) rows.now
        → IfOk result (λ made. IsVocabulary parts made.1) }
{
    let vocabulary = vocabulary(alloc, rows)?;
    let links = links_of(alloc, rows)?;
    Ok((links, vocabulary))
}

// The links of the parts whose rows these are.
fn links_of(alloc: Global, rows: &[Items<(u32, Event)>]) -> Made<Vec<Link>>
    requires few { length rows.now ≤ MOST_COMPONENTS }
    requires rows { (parts : List Part) × AreRows parts (length parts) rows.now }
    ensures { (parts : List Part) → AreRows parts (length parts) rows.now
        → IfOk result (λ made. AreLinksBefore parts (length parts) 0 made.items) }
{
    let mut made = Vec::new(alloc);
    for (left, row) in rows.iter().enumerate() {
        add_links(alloc, &mut made, left as u32, row.as_slice())?;
    }
    Ok(made)
}

// Adds the links of the part `left` with later ones, at the end.
fn add_links(alloc: Global, links: &mut Vec<Link>, left: u32, row: &[(u32, Event)]) -> Made<()>
    requires { (k : ℕ) → k < length row.now → left < (pair_at row.now k).0 }
    ensures { (parts : List Part) → IsRow parts (length parts) left row.now
        → AreLinksBefore parts left 0 links.old.items
        → OnOk result (AreLinksBefore parts (left + 1) 0 links.new.items) }
{
    let mut start = 0;
    while start < row.len() {
        let end = group_end(row, start);
        let shared = events_in(alloc, &row[start..end])?;
        push(links, Link::new(left, row[start].0, shared))?;
        start = end;
    }
    Ok(())
}

// Adds a link at the end.
fn push(links: &mut Vec<Link>, link: Link) -> Made<()>
    ensures { OnOk result (links.new.items ≡ links.old.items ++ link ∷ []) }
{
    links.push(link)?;
    Ok(())
}

// Where the pairs end that have the same part as the one in the place `start`.
fn group_end(row: &[(u32, Event)], start: usize) -> usize
    requires { start < length row.now }
    ensures some { start < result }
    ensures within { result ≤ length row.now }
    ensures same { (k : ℕ) → start ≤ k → k < result → (pair_at row.now k).0 ≡ (pair_at row.now start).0 }
    ensures other { result < length row.now → (pair_at row.now result).0 ≢ (pair_at row.now start).0 }
{
    let mut end = start + 1;
    while end < row.len() && row[end].0 == row[start].0 {
        end += 1;
    }
    end
}

// The events of the pairs.
fn events_in(alloc: Global, pairs: &[(u32, Event)]) -> Made<EventSet>
    ensures { IfOk result (λ made. (e : ℕ) → has made e ≡ has_event pairs.now e) }
{
    let mut events = EventSet::new(alloc);
    include_all(&mut events, pairs)?;
    Ok(events)
}

// Adds the events of the pairs to the set.
fn include_all(events: &mut EventSet, pairs: &[(u32, Event)]) -> Made<()>
    ensures { OnOk result ((e : ℕ) → has events.new e ≡ (has events.old e || has_event pairs.now e)) }
{
    for (_, event) in pairs {
        events.insert(*event)?;
    }
    Ok(())
}

// The events of all rows.
fn vocabulary(alloc: Global, rows: &[Items<(u32, Event)>]) -> Made<EventSet>
    ensures { IfOk result (λ made. (e : ℕ) → has made e ≡ any_has_event rows.now e) }
{
    let mut events = EventSet::new(alloc);
    for row in rows {
        include_all(&mut events, row.as_slice())?;
    }
    Ok(events)
}
