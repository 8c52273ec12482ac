//! The events that the head of a prefix stands for.

ghost use Rattle.std.specs.Prelude.{◌≡◌, ◌<◌, ◌^◌, []};
ghost use Rattle.csp_atoms.specs.declared.value.Value.TheVariants.{One};
ghost use Rattle.csp_program.specs.declared.programs.Content.{Content};
ghost use Rattle.process_steps.specs.Ways.{of_head, of_value};
ghost use Rattle.step_values.specs.Starts.{GivesStart};

use csp_atoms::{Atom, AtomSet, Value};
use csp_base::{Event, Stop};
use csp_program::{Head, Program, ValueKind};
use csp_values::EvalResult;

/// What the event of a prefix is among.
#[derive(Clone, Copy)]
pub struct Start<'a> {
    /// The number of the first event.
    pub first: u64,
    /// The values of each field.
    pub sets: &'a [AtomSet],
}

// The events of a channel.
fn of_channel(program: &Program, channel: u32) -> EvalResult<Start<'_>>
    ensures { GivesStart program.now result (of_head program.now (Head.Channel channel)) }
{
    match program.content().channels.get(channel as usize) {
        Some(channel) => match &channel.fields {
            Some(sets) => Ok(Start {
                first: u64::from(channel.first),
                sets: sets.as_slice(),
            }),
            None => Err(Stop::Told(ValueKind::Kind)),
        },
        None => Err(Stop::Told(ValueKind::Kind)),
    }
}

// An event alone.
fn of_event<'a>(event: Event) -> Start<'a>
    ensures first { result.first ≡ event }
    ensures few { result.first < 2 ^ 32 }
    ensures sets { result.sets.now ≡ [] }
{
    Start {
        first: u64::from(event.0),
        sets: &[],
    }
}

// The event that an atom is.
fn of_atom<'a>(atom: Atom) -> EvalResult<Start<'a>>
    ensures { (p : Content) → GivesStart p result (of_value (One atom)) }
{
    match atom {
        Atom::Event(event) => Ok(of_event(event)),
        _ => Err(Stop::Told(ValueKind::Kind)),
    }
}

// The event that a value is.
#[tactic(auto, using(crate::proofs::ChannelEvents::same_start))]
fn of_value<'a>(value: &Value) -> EvalResult<Start<'a>>
    ensures { (p : Content) → GivesStart p result (of_value value.now) }
{
    match value {
        Value::One(atom) => of_atom(*atom),
        Value::Many(_) => Err(Stop::Told(ValueKind::Kind)),
    }
}

/// The events that a head stands for. Its fault has the kind `Kind`: there is no such channel, or one without field sets, or the head is a bound name
/// or a value that is no event.
pub fn of_head<'a>(program: &'a Program, head: &Head) -> EvalResult<Start<'a>>
    ensures { GivesStart program.now result (of_head program.now head.now) }
{
    match head {
        Head::Channel(channel) => of_channel(program, *channel),
        Head::Bound(_) => Err(Stop::Told(ValueKind::Kind)),
        Head::Put(value) => of_value(value),
    }
}
