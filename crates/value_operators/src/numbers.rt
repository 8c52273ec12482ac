//! The numbers of events, from the places of values in the sets of a channel's fields.

ghost use Rattle.std.specs.Prelude.{◌≡◌, ◌+◌, ◌-◌, ◌*◌, ◌<◌, ◌^◌, min, nat_eq, None, Some, drop, length, slice_get, MatchOption};
ghost use Rattle.csp_program.specs.Prelude.{row_count, sets_of};
ghost use Rattle.value_laws.specs.Numbers as meant;
ghost use Rattle.value_laws.specs.Numbers.{field_place};
ghost use Rattle.value_operators.specs.Forms as form;
ghost use Rattle.value_operators.specs.Gives.{Gives};

use crate::EvalResult;
use csp_atoms::{AtomSet, Value};
use csp_base::Stop;
use csp_program::{Channel, EventPart, ValueKind};

// Whether no list takes one value from each set, since one of them is empty.
fn has_empty(sets: &[AtomSet]) -> bool
    ensures { result ≡ nat_eq (row_count sets.now) 0 }
{
    for set in sets {
        if set.is_empty() {
            return true;
        }
    }
    false
}

/// How many lists take one value from each set. Counting stops at the end of 64 bits.
pub fn row_count(sets: &[AtomSet]) -> u64
    ensures { result ≡ min (row_count sets.now) (2 ^ 64 - 1) }
{
    let mut count: u64 = 1;
    for set in sets {
        count = count.saturating_mul(set.len() as u64);
    }
    count
}

// The number of the first event of a channel.
fn first_of(channels: &[Channel], channel: u32) -> u32
    ensures { result ≡ meant.first_of (slice_get channels.now channel) }
{
    match channels.get(channel as usize) {
        Some(channel) => channel.first,
        None => 0,
    }
}

/// The place of a value among the values of a field. A value that is none of them has the kind `OutsideChannel`.
pub fn place_in(set: &AtomSet, value: &Value) -> EvalResult<u64>
    ensures { Gives result (field_place set.now value.now) }
{
    match value {
        Value::One(atom) => match set.place_of(*atom) {
            Some(place) => Ok(place as u64),
            None => Err(Stop::Told(ValueKind::OutsideChannel)),
        },
        Value::Many(_) => Err(Stop::Told(ValueKind::OutsideChannel)),
    }
}

/// The number of fields with one more, which has `place` in its set, where those before have the number `number`; both numbers count `each` for one,
/// and stop at the end of 64 bits.
pub fn with_field(number: u64, set: &AtomSet, place: u64, each: u64) -> u64
    ensures { result ≡ min (number * length set.now + place * each) (2 ^ 64 - 1) }
{
    let before = number.saturating_mul(set.len() as u64);
    let here = place.saturating_mul(each);
    before.saturating_add(here)
}

/// The sets of a channel's fields, where it has them.
pub fn field_sets(channels: &[Channel], channel: u32) -> Option<&[AtomSet]>
    ensures { MatchOption result (sets_of (slice_get channels.now channel) ≡ None) (λ sets.
        sets_of (slice_get channels.now channel) ≡ Some sets.now) }
{
    match channels.get(channel as usize) {
        Some(channel) => match &channel.fields {
            Some(sets) => Some(sets.as_slice()),
            None => None,
        },
        None => None,
    }
}

// How many events begin with one choice of the first fields, `given` of them.
fn count_each(sets: &[AtomSet], given: usize) -> u64
    ensures { result ≡ min (row_count (drop given sets.now)) (2 ^ 64 - 1) }
{
    if given >= sets.len() {
        return 1;
    }
    row_count(&sets[given..])
}

/// How many events begin with one choice of the first fields, `given` of them; 0 where the channel has no event at all. Counting stops at the end of
/// 64 bits.
pub fn each_of(sets: &[AtomSet], given: usize) -> u64
    ensures { result ≡ min (form.each_of sets.now given) (2 ^ 64 - 1) }
{
    if has_empty(sets) {
        return 0;
    }
    count_each(sets, given)
}

// A number of 32 bits.
fn small(number: u64) -> u32
    requires { number < 2 ^ 32 }
    ensures { result ≡ number }
{
    number as u32
}

/// The number of the event that stands at `place` among those of a channel, within 32 bits.
pub fn event_at(channels: &[Channel], channel: u32, place: u64) -> u32
    requires { meant.first_of (slice_get channels.now channel) + place < 2 ^ 32 }
    ensures { result ≡ meant.first_of (slice_get channels.now channel) + place }
{
    first_of(channels, channel) + small(place)
}

/// How many events of a channel begin with one choice of the first fields, `given` of them, within 32 bits.
pub fn count_with(channels: &[Channel], channel: u32, given: usize) -> u32
    requires { form.count_with (sets_of (slice_get channels.now channel)) given < 2 ^ 32 }
    ensures { result ≡ form.count_with (sets_of (slice_get channels.now channel)) given }
{
    match field_sets(channels, channel) {
        Some(sets) => small(count_each(sets, given)),
        None => 0,
    }
}

/// Whether one of the parts is of a channel that has no field sets.
pub fn lack_sets(channels: &[Channel], parts: &[EventPart]) -> bool
    ensures { result ≡ form.lack_sets channels.now parts.now }
{
    for part in parts {
        if field_sets(channels, part.channel).is_none() {
            return true;
        }
    }
    false
}
