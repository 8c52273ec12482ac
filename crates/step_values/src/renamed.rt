//! What a pair of a renaming renames under a binding of its generators.

ghost use Rattle.std.specs.Prelude.{◌≡◌, ◌+◌, ◌<◌, ◌≤◌, ◌^◌, ◌++◌, [], drop, take, length, map, IfOk, Ok};
ghost use Rattle.csp_atoms.specs.declared.value.Value.TheVariants as value;
ghost use Rattle.csp_program.specs.Prelude.{IsInOrder, and_then, value_of};
ghost use Rattle.csp_program.specs.declared.expressions.EventPart.{out-EventPart};
ghost use Rattle.csp_program.specs.declared.expressions.Expr.TheVariants as expression;
ghost use Rattle.csp_values.specs.Worth.{front_worth};
ghost use Rattle.process_steps.specs.Ways.{each_joined};
ghost use Rattle.process_steps.specs.Renaming as meant;
ghost use Rattle.value_operators.specs.Env.{with_bound};
ghost use Rattle.value_operators.specs.Gives.{Gives};
ghost use Rattle.step_values.specs.Walked.{as_event, literals, new_event, pair_walked, renamed_as};

use containers::Items;
use csp_atoms::{Atom, Value};
use csp_base::{Event, Made, Stop};
use csp_program::copies::copy_value;
use csp_program::{Channel, EventInfo, EventPart, Expr, Program, ValueKind};
use csp_values::{EvalResult, eval, eval_all_under, front_under};
use std::alloc::Global;
use value_operators::numbers::count_with;

// What the new side of a pair comes to.
#[derive(Clone, Copy)]
struct NewSide<'a> {
    /// Where memory comes from.
    alloc: Global,
    /// The program.
    program: &'a Program,
    /// The number of its channel.
    channel: u32,
    /// The values of its fields.
    values: &'a [Value],
    /// How many fields the old side gives.
    given: usize,
}

/// The channels of a program, which is in order.
pub(crate) fn channels_of(program: &Program) -> &[Channel]
    ensures channels { result.now ≡ program.now.channels }
    ensures in_order { IsInOrder program.now }
{
    program.content().channels.as_slice()
}

// The events of a program from one on, so many where there are as many.
fn events_from(program: &Program, first: u32, count: u32) -> &[EventInfo]
    ensures { result.now ≡ take count (drop first program.now.events) }
{
    let events = program.content().events.as_slice();
    if first as usize >= events.len() {
        return &[];
    }
    let rest = &events[first as usize..];
    if count as usize >= rest.len() {
        return rest;
    }
    &rest[..count as usize]
}

// The values of the fields of an event but for the first ones.
fn fields_from(fields: &[Atom], given: usize) -> &[Atom]
    ensures { result.now ≡ drop given fields.now }
{
    if given >= fields.len() {
        return &[];
    }
    &fields[given..]
}

// The values as expressions.
fn literals(alloc: Global, values: &[Value]) -> Made<Items<Expr>>
    ensures { IfOk result (λ made. made ≡ literals values.now) }
{
    let mut made = Items::new(alloc);
    for value in values {
        made.push_made(copy_value(alloc, value).map(Expr::Lit))?;
    }
    Ok(made)
}

// The values as expressions, and after them the atoms.
fn literals_then(alloc: Global, values: &[Value], atoms: &[Atom]) -> Made<Items<Expr>>
    ensures { IfOk result (λ made. made ≡ literals values.now ++ map (λ a. expression.Lit (value.One a)) atoms.now) }
{
    let mut made = literals(alloc, values)?;
    for atom in atoms {
        made.push(Expr::Lit(Value::One(*atom)))?;
    }
    Ok(made)
}

// The event that a value is.
fn to_event(value: &Value) -> EvalResult<Event>
    ensures { Gives result (as_event value.now) }
{
    match value {
        Value::One(Atom::Event(event)) => Ok(*event),
        _ => Err(Stop::Told(ValueKind::Kind)),
    }
}

// The event that an expression is worth.
fn event_in(alloc: Global, program: &Program, expr: &Expr) -> EvalResult<Event>
    ensures { Gives result (and_then (value_of program.now expr.now) as_event) }
{
    let value = eval(alloc, program, expr)?;
    to_event(&value)
}

// The event that has `place` among those from `first` on.
fn event_after(first: u32, place: usize) -> Event
    requires { first + place < 2 ^ 32 }
    ensures { result ≡ first + place }
{
    Event(first + place as u32)
}

// What an event becomes.
#[tactic(auto, using(crate::proofs::NewEvents::event_is))]
fn new_of(new: &NewSide<'_>, info: &EventInfo) -> EvalResult<Event>
    ensures { Gives result (new_event new.now.program.now new.now.channel new.now.values.now
        (drop new.now.given info.now.fields)) }
{
    let rest = fields_from(info.fields.as_slice(), new.given);
    let fields = literals_then(new.alloc, new.values, rest)?;
    event_in(new.alloc, new.program, &Expr::Event(new.channel, fields))
}

// What is renamed, with an event and what it becomes.
fn add_event(
    new: &NewSide<'_>,
    event: Event,
    info: &EventInfo,
    renamed: Items<(Event, Event)>,
) -> EvalResult<Items<(Event, Event)>>
    ensures { Gives result
        (and_then (renamed_as (new_event new.now.program.now new.now.channel new.now.values.now) new.now.given
        event info.now) (λ more. Ok (renamed ++ more))) }
{
    let becomes = new_of(new, info)?;
    let mut renamed = renamed;
    renamed.push((event, becomes))?;
    Ok(renamed)
}

// What is renamed, with events from `first` on and what each becomes.
fn add_events(
    new: &NewSide<'_>,
    first: u32,
    events: &[EventInfo],
    renamed: Items<(Event, Event)>,
) -> EvalResult<Items<(Event, Event)>>
    requires { first + length events.now ≤ 2 ^ 32 }
    ensures { Gives result
        (and_then
        (each_joined
        (renamed_as (new_event new.now.program.now new.now.channel new.now.values.now) new.now.given) first events.now)
        (λ more. Ok (renamed ++ more))) }
{
    let mut renamed = renamed;
    for (place, info) in events.iter().enumerate() {
        renamed = add_event(new, event_after(first, place), info, renamed)?;
    }
    Ok(renamed)
}

/// What is renamed, with what a pair renames under a binding.
#[tactic(auto, unfolding(crate::specs::Walked::pair_walked), using(crate::proofs::Pairs::count_fits, crate::proofs::Pairs::events_fit))]
pub(crate) fn add_pair(
    alloc: Global,
    program: &Program,
    bound: &[(u32, Atom)],
    pair: &(EventPart, EventPart),
    renamed: Items<(Event, Event)>,
) -> EvalResult<Items<(Event, Event)>>
    ensures { Gives result (pair_walked program.now (with_bound bound.now []) pair.now renamed) }
{
    let old = &pair.0;
    let new = &pair.1;
    let first = front_under(alloc, program, bound, old.channel, old.fields.as_slice())?;
    let values = eval_all_under(alloc, program, bound, new.fields.as_slice())?;
    let side = NewSide {
        alloc,
        program,
        channel: new.channel,
        values: values.as_slice(),
        given: old.fields.len(),
    };
    let count = count_with(channels_of(program), old.channel, side.given);
    let events = events_from(program, first, count);
    add_events(&side, first, events, renamed)
}
