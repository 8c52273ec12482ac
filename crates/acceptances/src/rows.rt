//! Event sets in rows, each in the row of one of its events, so that those within a set are found among few.

ghost use Rattle.std.specs.Prelude.{◌≡◌, ℕ, ◌⊎◌, ◌<◌, ◌%◌, [], Some, All, IfOk, length, slice_index_or};
ghost use Rattle.std.specs.List.{list_any};
ghost use Rattle.acceptances.specs.OfferTests.{has_smaller, is_smaller as is_smaller_set};
ghost use Rattle.acceptances.specs.EventRows.{AreEventRows, IsRowFor};

use containers::{Items, empty_rows, push_at};
use csp_base::{Event, EventSet, Made};
use std::alloc::Global;

// The places of the sets in rows. A set stands in the row of one of its events, the empty one in the first row.
pub(crate) fn event_rows(alloc: Global, sets: &[EventSet]) -> Made<Vec<Items<usize>>>
    ensures { IfOk result (λ rows. AreEventRows sets.now rows.items) }
{
    let mut rows = empty_rows(alloc, sets.len() + 1)?;
    for (place, set) in sets.iter().enumerate() {
        let row = shortest_row(&rows, set);
        push_at(&mut rows, row, place)?;
    }
    Ok(rows)
}

// The shortest of the rows of the set's events, or 0 where it has none.
fn shortest_row(rows: &[Items<usize>], set: &EventSet) -> usize
    requires { 0 < length rows.now }
    ensures within { result < length rows.now }
    ensures row { IsRowFor (length rows.now) set.now result }
{
    let mut shortest = None;
    for event in set.iter() {
        shortest = Some(shorter_row(rows, shortest, row_of(rows, event)));
    }
    match shortest {
        Some(row) => row,
        None => 0,
    }
}

// The shorter one of two rows, or the one that there is.
fn shorter_row(rows: &[Items<usize>], first: Option<usize>, second: usize) -> usize
    requires first { (row : ℕ) → first ≡ Some row → row < length rows.now }
    requires second { second < length rows.now }
    ensures { (first ≡ Some result) ⊎ (result ≡ second) }
{
    match first {
        None => second,
        Some(row) => {
            if rows[row].len() <= rows[second].len() {
                row
            } else {
                second
            }
        }
    }
}

// The row of an event.
fn row_of(rows: &[Items<usize>], event: Event) -> usize
    requires { 0 < length rows.now }
    ensures row { result ≡ event % length rows.now }
    ensures within { result < length rows.now }
{
    event.0 as usize % rows.len()
}

// Whether one of the sets lies within the given one, and is not the same.
pub(crate) fn contains_smaller(sets: &[EventSet], rows: &[Items<usize>], set: &EventSet) -> bool
    requires { AreEventRows sets.now rows.now }
    ensures { result ≡ has_smaller sets.now set.now }
{
    if row_has_smaller(sets, rows[0].as_slice(), set) {
        return true;
    }
    for event in set.iter() {
        if row_has_smaller(sets, rows[row_of(rows, event)].as_slice(), set) {
            return true;
        }
    }
    false
}

// Whether one of the sets in a row lies within the given one, and is not the same.
fn row_has_smaller(sets: &[EventSet], row: &[usize], set: &EventSet) -> bool
    requires { All (λ place. place < length sets.now) row.now }
    ensures { result ≡ list_any (λ place. is_smaller_set (slice_index_or sets.now place []) set.now) row.now }
{
    for place in row {
        if is_smaller(&sets[*place], set) {
            return true;
        }
    }
    false
}

// Whether the first set lies within the second, and is not the same.
fn is_smaller(first: &EventSet, second: &EventSet) -> bool
    ensures { result ≡ is_smaller_set first.now second.now }
{
    first.is_subset(second) && !second.is_subset(first)
}
