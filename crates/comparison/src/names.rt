//! Events that two programs print alike, found without their texts: where both programs give the same names, an event with the same channel and the
//! same fields.

ghost use Rattle.std.specs.Prelude.{◌≡◌, ℕ, IsTrue, MatchBool, slice_get};
ghost use Rattle.report.specs.EventText.{channel_name};
ghost use Rattle.comparison.specs.Agreement.{AgreeAt, HaveSameNames};

use csp_base::Name;
use csp_program::{Channel, Content, EventInfo};

// Whether channels with the same number have the same name, and so constants.
pub(crate) fn have_same_names(content: &Content, other: &Content) -> bool
    ensures { IsTrue result → HaveSameNames content.now other.now }
{
    same_constants(content.consts.as_slice(), other.consts.as_slice())
        && same_channels(content.channels.as_slice(), other.channels.as_slice())
}

fn same_constants(names: &[Name], others: &[Name]) -> bool
    ensures { IsTrue result → names.now ≡ others.now }
{
    names == others
}

fn same_channels(channels: &[Channel], others: &[Channel]) -> bool
    ensures { IsTrue result → (k : ℕ) → channel_name (slice_get channels.now k)
        ≡ channel_name (slice_get others.now k) }
{
    if channels.len() != others.len() {
        return false;
    }
    for place in 0..channels.len() {
        if !same_name(&channels[place].name, &others[place].name) {
            return false;
        }
    }
    true
}

fn same_name(name: &Name, other: &Name) -> bool
    ensures { MatchBool result (name.now ≡ other.now) (name.now ≡ other.now → ⊥) }
{
    name.as_slice() == other.as_slice()
}

// Whether both have an event with this number, of the channel with the same number and with the same fields.
pub(crate) fn is_same_event(content: &Content, other: &Content, number: u32) -> bool
    ensures { IsTrue result → HaveSameNames content.now other.now → AgreeAt content.now other.now number }
{
    let Some(info) = content.events.get(number as usize) else {
        return false;
    };
    let Some(found) = other.events.get(number as usize) else {
        return false;
    };
    is_same_info(info, found)
}

fn is_same_info(info: &EventInfo, other: &EventInfo) -> bool
    ensures { IsTrue result → info.now ≡ other.now }
{
    if info.channel != other.channel {
        return false;
    }
    info.fields == other.fields
}
