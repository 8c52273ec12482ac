//! Where a walk over the ways to fill the fields of a prefix stands, with a stack of its own: no number of inputs costs stack of the program.

ghost use Rattle.std.specs.Prelude.{◌≡◌, ◌++◌, ◌∷◌, [], OnOk};
ghost use Rattle.csp_steps.specs.Walked.{IsBegun, IsPopped, number_of, number_with_value};

use containers::Items;
use csp_atoms::{Atom, AtomSet};
use csp_base::{Made, NoMemory};
use csp_program::Field;
use smallvec::SmallVec;
use std::alloc::Global;

/// The fields that come next.
#[derive(Clone, Copy)]
pub(crate) struct Turn<'a> {
    /// The values of each of them.
    pub sets: &'a [AtomSet],
    /// The fields.
    pub fields: &'a [Field],
}

/// The value of a field of an event.
#[derive(Clone, Copy, Default)]
pub(crate) struct FieldValue {
    /// Its place among the values of the field.
    pub place: u64,
    /// The number of values of the field.
    pub count: u64,
}

/// The values of the first fields of an event, outputs and inputs alike. Most events have few fields.
pub(crate) type FieldValues = SmallVec<FieldValue, 4>;

/// An input.
#[derive(Drop)]
pub(crate) struct Input<'a> {
    /// Its name.
    pub name: u32,
    /// The values of its field.
    pub set: &'a AtomSet,
    /// Those that it may take, where a set is given.
    pub given: Option<AtomSet>,
    /// The values of each field after it.
    pub sets: &'a [AtomSet],
    /// The fields after it.
    pub fields: &'a [Field],
    /// How many fields stand before it.
    pub before: usize,
}

/// An input under which a walk stands.
#[derive(Drop)]
pub(crate) struct Frame<'a> {
    /// The input.
    pub input: Input<'a>,
    /// Its value that is on turn.
    pub atom: Atom,
    /// The place of the value that comes after it.
    pub next: usize,
}

/// A walk over the ways to fill fields, in nested loops.
#[derive(Drop)]
pub(crate) struct Walk<'a> {
    /// The names that are bound with their values, the last one bound at the end.
    pub bound: SmallVec<(u32, Atom), 4>,
    /// The values of the fields that are filled.
    pub values: FieldValues,
    /// The inputs that bind them.
    pub frames: Items<Frame<'a>>,
    /// The fields that come next; none where the last input goes on.
    pub turn: Option<Turn<'a>>,
}

/// What a walk comes to by one turn.
#[derive(Clone, Copy)]
pub(crate) enum Turned {
    /// To the end of the fields, with their values and the names that are bound.
    Way,
    /// To other fields.
    On,
    /// To its own end.
    End,
}

/// A walk that begins.
pub(crate) fn begin<'a>(alloc: Global, turn: Turn<'a>) -> Walk<'a>
    ensures { IsBegun turn.entry result }
{
    Walk {
        bound: SmallVec::new(alloc),
        values: SmallVec::new(alloc),
        frames: Items::new(alloc),
        turn: Some(turn),
    }
}

/// Binds one more name.
pub(crate) fn bind(bound: &mut SmallVec<(u32, Atom), 4>, name: u32, atom: Atom) -> Made<()>
    ensures { OnOk result (bound.new.items ≡ bound.old.items ++ (name, atom) ∷ []) }
{
    match bound.push((name, atom)) {
        Ok(()) => Ok(()),
        Err(_) => Err(NoMemory),
    }
}

/// Adds the value of one more field.
pub(crate) fn add_value(values: &mut FieldValues, value: FieldValue) -> Made<()>
    ensures { OnOk result (values.new.items ≡ values.old.items ++ value ∷ []) }
{
    match values.push(value) {
        Ok(()) => Ok(()),
        Err(_) => Err(NoMemory),
    }
}

// The number of fields with one more. Counting stops at the end of 64 bits.
fn number_with_value(number: u64, value: FieldValue) -> u64
    ensures { result ≡ number_with_value number value }
{
    let before = number.saturating_mul(value.count);
    before.saturating_add(value.place)
}

/// The number that an event with these values has among the events of its channel.
pub(crate) fn number_of(values: &[FieldValue]) -> u64
    ensures { result ≡ number_of values.now }
{
    let mut number: u64 = 0;
    for value in values {
        number = number_with_value(number, *value);
    }
    number
}

/// The last input under which the walk stands; it is taken away, and its value.
pub(crate) fn pop<'a>(walk: &mut Walk<'a>) -> Option<Frame<'a>>
    ensures { IsPopped walk.old walk.new result }
{
    let frame = walk.frames.pop()?;
    let _ = walk.bound.pop();
    Some(frame)
}
