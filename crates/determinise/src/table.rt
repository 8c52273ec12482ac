//! Determinised tables.

ghost use Rattle.std.specs.Prelude.{◌≡◌};

use containers::{Items, Numbering};
use csp_tables::NormNode;
use std::marker::Model;

/// A determinised table: its nodes, and for each node the set of terms to which the runs to it lead. Contracts see the two
/// lists.
#[derive(Drop)]
pub struct SetTable {
    nodes: Vec<NormNode>,
    sets: Numbering<Items<u32>>,
}

impl Model for SetTable {
    ghost use Rattle.determinise.specs.Determinised.{Determinised};

    ghost Value = { Determinised };

    ghost view = { λ t. record { nodes = t.nodes.items; sets = t.sets } };
}

impl SetTable {
    // The table of these nodes and sets.
    pub(crate) fn new(nodes: Vec<NormNode>, sets: Numbering<Items<u32>>) -> SetTable
        ensures { result ≡ record { nodes = nodes.items; sets = sets } }
    {
        SetTable { nodes, sets }
    }

    /// The nodes alone, in the order of their numbers.
    pub fn into_nodes(self) -> Vec<NormNode>
        ensures { result.items ≡ self.nodes }
    {
        let SetTable { nodes, sets: _sets } = self;
        nodes
    }
}
