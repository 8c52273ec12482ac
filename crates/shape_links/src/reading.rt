//! What a component of a shape has.

ghost use Rattle.std.specs.Prelude.{◌≡◌, ◌<◌, length};
ghost use Rattle.csp_tables.specs.Prelude.{HasForm, node_at, part_at};
ghost use Rattle.observed_runs.specs.Prelude.{AreEnough, HaveEnough};
ghost use Rattle.shape_links.specs.Component.{table_of};
ghost use Rattle.shape_links.specs.Links.{ends_of};

use crate::component::Component;
use containers::Items;
use csp_base::{Event, EventSet};
use csp_tables::{NormNode, NormTable, Part};

impl<'a> Component<'a> {
    /// Its alphabet and its table.
    pub fn part(&self) -> &'a Part
        ensures value { result.now ≡ part_at self.now.shape.now.parts self.now.number }
        ensures form { HasForm result.now }
    {
        self.shape.part(self.number)
    }

    /// The events that it takes part in.
    pub fn alphabet(&self) -> &'a EventSet
        ensures { result.now ≡ (part_at self.now.shape.now.parts self.now.number).alphabet }
    {
        self.part().alphabet()
    }

    /// Its table.
    pub fn table(&self) -> &'a NormTable
        ensures { result.now ≡ table_of self.now }
    {
        self.part().table()
    }

    /// The node in this place.
    pub fn node(&self, node: u32) -> &'a NormNode
        requires { node < length (table_of self.now) }
        ensures { result.now ≡ node_at (table_of self.now) node }
    {
        &self.table().nodes()[node as usize]
    }

    /// For each node the steps that an observer of shared events has to follow.
    pub fn rows(&self) -> &'a [Items<(Event, u32)>]
        ensures { HaveEnough self.now.shape.now.vocabulary (table_of self.now) result.now }
    {
        self.shape.rows(self.number)
    }

    /// These steps of a node.
    pub fn steps(&self, node: u32) -> &'a [(Event, u32)]
        requires { node < length (table_of self.now) }
        ensures { AreEnough self.now.shape.now.vocabulary (node_at (table_of self.now) node).next result.now }
    {
        self.rows()[node as usize].as_slice()
    }

    /// Its links, in rising order.
    pub fn links(&self) -> &'a [u32]
        ensures { result.now ≡ ends_of self.now.shape.now self.now.number }
    {
        self.shape.links(self.number)
    }
}
