//! How many events channels have.

ghost use Rattle.std.specs.Prelude.{◌≡◌, ◌+◌, ◌-◌, ◌*◌, ◌<◌, ◌^◌, min};
ghost use Rattle.csp_program.specs.EventNumber as meant;
ghost use Rattle.event_tables.specs.Spread.{spread};
ghost use Rattle.script_names.specs.Resolved.{all_events};

use crate::sets::SharedSets;
use csp_atoms::AtomSet;
use value_operators::numbers::row_count;

/// How many events the channels with these field sets have. Counting stops at the end of 64 bits.
pub fn event_count(shared: &[SharedSets]) -> u64
    ensures { result ≡ min (all_events (spread shared.now)) (2 ^ 64 - 1) }
{
    let mut count: u64 = 0;
    for one in shared {
        count = count.saturating_add(shared_count(one));
    }
    count
}

// How many events the channels of a declaration have.
fn shared_count(one: &SharedSets) -> u64
    ensures { result ≡ min (one.now.channels * meant.row_count one.now.sets) (2 ^ 64 - 1) }
{
    (one.channels as u64).saturating_mul(row_count(one.sets.as_slice()))
}

/// The number of the first event after those of a channel with these field sets, which begin with `first`.
pub fn first_after(first: u32, sets: &[AtomSet]) -> u32
    requires { first + meant.row_count sets.now < 2 ^ 32 }
    ensures { result ≡ first + meant.row_count sets.now }
{
    first + row_count(sets) as u32
}
