//! Tables of components: numbered nodes, each with its possible events and its acceptances.

ghost use Rattle.std.specs.Prelude.{◌≡◌, ◌<◌, ◌^◌, length, slice_get};
ghost use Rattle.std.specs.Option.{option_copied};

use csp_base::{Event, EventSet};
use std::marker::Model;

/// A node of a table: the events that are possible there, each with the node to which it leads, and the acceptances.
/// The type asks for no order.
pub struct NormNode {
    next: Vec<(Event, u32)>,
    accept: Vec<EventSet>,
}

impl Drop for NormNode {
    fn drop(self) {
        let NormNode { next, accept } = self;
    }
}

impl Model for NormNode {
    ghost use Rattle.csp_tables.specs.Table.{Node};

    ghost Value = { Node };

    ghost view = { λ n. record { next = n.next.items; accept = n.accept.items } };
}

impl NormNode {
    /// The node with these possible events, each with the node to which it leads, and with these acceptances.
    pub fn new(next: Vec<(Event, u32)>, accept: Vec<EventSet>) -> NormNode
        ensures { result ≡ record { next = next.items; accept = accept.items } }
    {
        NormNode { next, accept }
    }

    /// The possible events, each with the node to which it leads.
    pub fn next(&self) -> &[(Event, u32)]
        ensures { result.now ≡ self.now.next }
    {
        self.next.as_slice()
    }

    /// The acceptances.
    pub fn accept(&self) -> &[EventSet]
        ensures { result.now ≡ self.now.accept }
    {
        self.accept.as_slice()
    }
}

/// The table of a component. Its nodes are numbered from 0, by numbers below 2 ^ 32, and node 0 is the first.
pub struct NormTable {
    nodes: Vec<NormNode>,
}

impl Drop for NormTable {
    fn drop(self) {
        let NormTable { nodes } = self;
    }
}

impl Model for NormTable {
    ghost use Rattle.std.specs.Prelude.{List, length, ◌<◌, ◌^◌};
    ghost use Rattle.csp_tables.specs.Table.{Node};

    ghost Value = { List Node };

    ghost view = { λ t. t.nodes.items };

    ghost invariant = { λ t. length t.nodes.items < 2 ^ 32 };
}

impl NormTable {
    /// The table of these nodes.
    pub fn from_nodes(nodes: Vec<NormNode>) -> NormTable
        requires { length nodes.items < 2 ^ 32 }
        ensures { result ≡ nodes.items }
    {
        NormTable { nodes }
    }

    /// The nodes, in the order of their numbers.
    pub fn nodes(&self) -> &[NormNode]
        ensures value { result.now ≡ self.now }
        ensures numbered { length self.now < 2 ^ 32 }
    {
        self.nodes.as_slice()
    }

    /// How many nodes there are.
    pub fn len(&self) -> usize
        ensures count { result ≡ length self.now }
        ensures numbered { length self.now < 2 ^ 32 }
    {
        self.nodes.len()
    }

    /// The node with this number, if there is one.
    pub fn get(&self, number: u32) -> Option<&NormNode>
        ensures { option_copied result ≡ slice_get self.now number }
    {
        self.nodes.as_slice().get(number as usize)
    }
}
