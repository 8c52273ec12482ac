//! An observer that follows the events of a run in another table.

ghost use Rattle.std.specs.Prelude.{◌≡◌, length, if◌then◌else◌};
ghost use Rattle.csp_tables.specs.Prelude.{HasForm, is_possible, node_after, node_at};
ghost use Rattle.conformance.specs.Following.{follow_step};

use crate::nodes::node_of;
use crate::steps::target_of;
use csp_base::{Event, EventSet};
use csp_tables::Part;
use observed_runs::Observer;
use std::marker::Model;

/// Where a table stands after the events of a run: at one of its nodes, or past its end once an event of an alphabet was not possible. Contracts see
/// the alphabet and the table.
#[derive(Drop)]
pub(crate) struct Follower<'a> {
    alphabet: &'a EventSet,
    part: &'a Part,
}

impl<'a> Model for Follower<'a> {
    ghost use Rattle.csp_tables.specs.Form.{HasForm};
    ghost use Rattle.conformance.specs.Following.{Following};

    ghost Value = { Following };

    ghost view = { λ f. record { alphabet = f.alphabet.now; table = f.part.now.table } };

    ghost invariant = { λ f. HasForm f.part.now };
}

impl<'a> Follower<'a> {
    // Of the events of the alphabet, in the table of the part.
    pub(crate) fn new(alphabet: &'a EventSet, part: &'a Part) -> Follower<'a>
        requires { HasForm part.now }
        ensures { result ≡ record { alphabet = alphabet.now; table = part.now.table } }
    {
        Follower { alphabet, part }
    }
}

impl<'a> Observer for Follower<'a> {
    ghost step = { λ follower state event. follow_step follower.alphabet follower.table state event };

    fn next(&self, state: u32, event: Event) -> u32 {
        if !self.alphabet.contains(event) {
            return state;
        }
        next_node(self.part, state, event)
    }
}

// The node to which the event leads from the node with this number; past the end, where it is not possible.
fn next_node(part: &Part, number: u32, event: Event) -> u32
    requires { HasForm part.now }
    ensures { result ≡ (if is_possible (node_at part.now.table number).next event
        then node_after part.now.table number event else length part.now.table) }
{
    let past = part.table().len() as u32;
    let Some(node) = node_of(part, number) else {
        return past;
    };
    let Some(target) = target_of(node.next(), event) else {
        return past;
    };
    target
}
