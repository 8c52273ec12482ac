//! The event table of channels.

ghost use Rattle.std.specs.Prelude.{◌≡◌, ◌≤◌, ◌++◌, length, map, IfOk, OnOk};
ghost use Rattle.csp_program.specs.EventTable as meant;
ghost use Rattle.dl_limits.specs.declared.TheConstants.{MOST_BYTES};

use crate::rows::rows;
use containers::Items;
use csp_atoms::Atom;
use csp_base::Made;
use csp_program::{Channel, EventInfo};
use std::alloc::Global;

/// The event table of channels: in their order, and for each the values of its fields in rising order, the first field slowest. There are no more channels
/// than 32 bits number.
pub fn event_table(alloc: Global, channels: &[Channel]) -> Made<Items<EventInfo>>
    requires { length channels.now ≤ MOST_BYTES }
    ensures { IfOk result (λ events. events ≡ meant.event_table channels.now) }
{
    let mut events = Items::new(alloc);
    let mut c: u32 = 0;
    for channel in channels {
        add_channel(alloc, &mut events, c, channel)?;
        c += 1;
    }
    Ok(events)
}

// Adds the events of the channel with the number `c`.
fn add_channel(alloc: Global, events: &mut Items<EventInfo>, c: u32, channel: &Channel) -> Made<()>
    ensures { OnOk result (events.new ≡ events.old ++ meant.channel_events c channel.now.fields) }
{
    match &channel.fields {
        Some(sets) => {
            let fields = rows(alloc, sets.as_slice())?;
            add_rows(events, c, fields)
        }
        None => Ok(()),
    }
}

// Adds the events of the channel with the number `c` whose fields have these values.
fn add_rows(events: &mut Items<EventInfo>, c: u32, rows: Vec<Items<Atom>>) -> Made<()>
    ensures { OnOk result (events.new ≡ events.old ++ map (meant.event_of c) rows.items) }
{
    for fields in rows {
        events.push(EventInfo { channel: c, fields })?;
    }
    Ok(())
}
