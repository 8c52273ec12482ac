//! Whether two programs have the same events.

ghost use Rattle.std.specs.Prelude.{◌≡◌, ◌≤◌, ◌<◌, IfErr, IfNone, IfOk, IfSome, MatchBool, OnOk, length, slice_get};
ghost use Rattle.csp_base.specs.Stops.{Tells};
ghost use Rattle.comparison.specs.Agreement.{AgreeAt, EventsDifferAt, HaveOtherEvents, printed_events};

use crate::names::{have_same_names, is_same_event};
use csp_base::{Bytes, Event, Made, Stop};
use csp_program::Program;
use report::{Refusal, event_text};
use std::alloc::Global;

// That both programs have the same list of printed events; else the least number at which the lists differ is told (41).
pub(crate) fn check_events(
    alloc: Global,
    program: &Program,
    other: &Program,
) -> Result<(), Stop<Refusal>>
    ensures same { OnOk result (printed_events program.now ≡ printed_events other.now) }
    ensures told { IfErr result (Tells (HaveOtherEvents program.now other.now)) }
{
    match first_other(alloc, program, other)? {
        Some(number) => Err(Stop::Told(Refusal::DifferentEvents { number })),
        None => Ok(()),
    }
}

// The least number at which the printed events of the programs differ, if they do.
fn first_other(alloc: Global, program: &Program, other: &Program) -> Made<Option<u32>>
    ensures differ { IfOk result (λ found. IfSome found (EventsDifferAt program.now other.now)) }
    ensures same { IfOk result (λ found. IfNone found (printed_events program.now ≡ printed_events other.now)) }
{
    let same_names = have_same_names(program.content(), other.content());
    for number in 0..most_events(program, other) {
        if same_names && is_same_event(program.content(), other.content(), number) {
            continue;
        }
        if !same_event(alloc, program, other, number)? {
            return Ok(Some(number));
        }
    }
    Ok(None)
}

// How many events the program has that has more.
fn most_events(program: &Program, other: &Program) -> u32
    ensures first { length program.now.events ≤ result }
    ensures second { length other.now.events ≤ result }
{
    let count = program.content().events.len() as u32;
    let others = other.content().events.len() as u32;
    if count < others { others } else { count }
}

// Whether both programs have an event with this number that is printed alike, or neither has one.
fn same_event(alloc: Global, program: &Program, other: &Program, number: u32) -> Made<bool>
    ensures { IfOk result (λ same. MatchBool same (AgreeAt program.now other.now number)
        (AgreeAt program.now other.now number → ⊥)) }
{
    let text = event_text_at(alloc, program, number)?;
    let other_text = event_text_at(alloc, other, number)?;
    Ok(same_text(&text, &other_text))
}

// Whether both are the same text, or none.
fn same_text(text: &Option<Bytes>, other: &Option<Bytes>) -> bool
    ensures { MatchBool result (text.now ≡ other.now) (text.now ≡ other.now → ⊥) }
{
    match (text, other) {
        (Some(text), Some(other)) => text.as_slice() == other.as_slice(),
        (None, None) => true,
        (Some(_), None) | (None, Some(_)) => false,
    }
}

// The printed text of the event with this number, if there is one.
fn event_text_at(alloc: Global, program: &Program, number: u32) -> Made<Option<Bytes>>
    ensures { IfOk result (λ text. text ≡ slice_get (printed_events program.now) number) }
{
    if number as usize >= program.content().events.len() {
        return Ok(None);
    }
    let text = event_text(alloc, program, Event(number))?;
    Ok(Some(text))
}
