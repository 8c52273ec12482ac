//! Channels with their field sets, and what a program holds with its event table.

ghost use Rattle.std.specs.Prelude.{◌≡◌, ◌+◌, ◌<◌, ◌≤◌, ◌^◌, [], ◌∷◌, ◌++◌, Some, List, drop, length, IfOk, OnOk};
ghost use Rattle.csp_program.specs.Prelude.{row_count};
ghost use Rattle.csp_program.specs.declared.programs.Channel.{Channel};
ghost use Rattle.dl_limits.specs.declared.TheConstants.{MOST_BYTES};
ghost use Rattle.event_tables.specs.Spread.{events_left, lent, spread};
ghost use Rattle.script_names.specs.Resolved as meant;

use crate::counts::first_after;
use crate::sets::{SharedSets, copy_sets, sets_at, spread_sets};
use crate::table::event_table;
use containers::Items;
use csp_atoms::AtomSet;
use csp_base::Made;
use csp_program::{Channel, Content};
use std::alloc::Global;
use std::mem::replace;

/// Gives the channels these field sets, and makes the event table.
pub fn fill_events(alloc: Global, content: &mut Content, shared: &[SharedSets]) -> Made<()>
    requires channels { length content.old.channels ≤ MOST_BYTES }
    requires events { meant.all_events (spread shared.now) < 2 ^ 32 }
    ensures { OnOk result (content.new
        ≡ meant.with_events content.old (meant.with_sets 0 content.old.channels (spread shared.now))) }
{
    let channels = replace(&mut content.channels, Items::new(alloc));
    content.channels = fill(alloc, channels, shared)?;
    content.events = event_table(alloc, content.channels.as_slice())?;
    Ok(())
}

// The channels with the field sets that the channels of each declaration share.
fn fill(alloc: Global, channels: Items<Channel>, shared: &[SharedSets]) -> Made<Items<Channel>>
    requires { meant.all_events (spread shared.now) < 2 ^ 32 }
    ensures { IfOk result (λ made. made ≡ meant.with_sets 0 channels (spread shared.now)) }
{
    let all = spread_sets(alloc, shared)?;
    let made = with_sets(alloc, channels, all.as_slice())?;
    Ok(made)
}

// The channels with these field sets.
fn with_sets(alloc: Global, channels: Items<Channel>, all: &[&[AtomSet]]) -> Made<Items<Channel>>
    requires { meant.all_events (lent all.now) < 2 ^ 32 }
    ensures { IfOk result (λ made. made ≡ meant.with_sets 0 channels (lent all.now)) }
{
    let mut made = Items::new(alloc);
    let mut first: u32 = 0;
    for channel in channels.into_vec() {
        first = add_channel(alloc, &mut made, first, channel, all)?;
    }
    Ok(made)
}

// Adds a channel with its field sets, if there are any left, and answers the number of the first event after its own.
fn add_channel(
    alloc: Global,
    made: &mut Items<Channel>,
    first: u32,
    channel: Channel,
    all: &[&[AtomSet]],
) -> Made<u32>
    requires { events_left first made.old (lent all.now) < 2 ^ 32 }
    ensures few { IfOk result (λ next.
        events_left next made.new (lent all.now) ≤ events_left first made.old (lent all.now)) }
    ensures made { IfOk result (λ next. (channels : List Channel) →
        made.new ++ meant.with_sets next channels (drop (length made.new) (lent all.now))
        ≡ made.old ++ meant.with_sets first (channel ∷ channels) (drop (length made.old) (lent all.now))) }
{
    match sets_at(all, made.len()) {
        Some(sets) => add_filled(alloc, made, first, channel, sets),
        None => {
            drop(channel);
            Ok(first)
        }
    }
}

// Adds a channel with these field sets, and answers the number of the first event after its own.
fn add_filled(
    alloc: Global,
    made: &mut Items<Channel>,
    first: u32,
    channel: Channel,
    sets: &[AtomSet],
) -> Made<u32>
    requires { first + row_count sets.now < 2 ^ 32 }
    ensures next { IfOk result (λ next. next ≡ first + row_count sets.now) }
    ensures made { OnOk result (made.new ≡ made.old ++ record channel { fields = Some sets.now; first = first } ∷ []) }
{
    let next = first_after(first, sets);
    match copy_sets(alloc, sets) {
        Ok(fields) => push_filled(made, first, channel, fields).map(|()| next),
        Err(error) => {
            drop(channel);
            Err(error)
        }
    }
}

// Puts a channel with these field sets at the end.
fn push_filled(
    made: &mut Items<Channel>,
    first: u32,
    mut channel: Channel,
    fields: Items<AtomSet>,
) -> Made<()>
    ensures { OnOk result (made.new ≡ made.old ++ record channel { fields = Some fields; first = first } ∷ []) }
{
    channel.fields = Some(fields);
    channel.first = first;
    made.push(channel)?;
    Ok(())
}
