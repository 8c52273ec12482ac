//! A shape that is sorted out once: the link of each event, the links of each part, and the steps that its runs have to follow.

ghost use Rattle.std.specs.Prelude.{◌≡◌, ◌<◌, ℕ, Some, IfOk, length};
ghost use Rattle.csp_tables.specs.Prelude.{HasForm, TripleDisjoint, alphabets_of, part_at, IsWellFormed, link_at};
ghost use Rattle.observed_runs.specs.Prelude.{HaveEnough};
ghost use Rattle.shape_links.specs.Links.{AreEnds, AreOwners, IsOwner, ends_of};

use crate::component::Component;
use crate::ends::links_of_parts;
use crate::owners::{link_of, links_of_events};
use crate::steps::steps_of_parts;
use containers::Items;
use csp_base::{Event, Made};
use csp_tables::{Link, Part, Shape};
use std::alloc::Global;
use std::marker::Model;

/// A well-formed shape in which no event is in three alphabets, with the link of each event, the links of each part, and of the
/// steps of each node those that an observer of links has to follow. Contracts see it as the shape.
#[derive(Drop)]
pub struct SortedShape<'a> {
    shape: &'a Shape,
    owners: Vec<u32>,
    ends: Vec<Items<u32>>,
    steps: Vec<Items<Items<(Event, u32)>>>,
}

impl<'a> Model for SortedShape<'a> {
    ghost use Rattle.std.specs.Prelude.{length};
    ghost use Rattle.csp_tables.specs.Part.{TripleDisjoint, alphabets_of};
    ghost use Rattle.csp_tables.specs.Shape.{Shape as ShapeValue, IsWellFormed};
    ghost use Rattle.shape_links.specs.Links.{AreEnds, AreOwners, AreSteps};

    ghost Value = { ShapeValue };

    ghost view = { λ p. p.shape.now };

    ghost invariant = { λ p. IsWellFormed p.shape.now × TripleDisjoint (alphabets_of p.shape.now.parts)
        × AreOwners p.shape.now p.owners.items × AreEnds p.shape.now (length p.shape.now.links) p.ends.items
        × AreSteps p.shape.now (length p.shape.now.parts) p.steps.items };
}

impl<'a> SortedShape<'a> {
    /// The shape, sorted out. It goes over each event of each link and each step of each table once.
    pub fn new(alloc: Global, shape: &'a Shape) -> Made<SortedShape<'a>>
        requires form { IsWellFormed shape.now }
        requires apart { TripleDisjoint (alphabets_of shape.now.parts) }
        ensures { IfOk result (λ sorted. sorted ≡ shape.now) }
    {
        let owners = links_of_events(alloc, shape)?;
        let ends = links_of_parts(alloc, shape)?;
        let steps = steps_of_parts(alloc, shape)?;
        Ok(SortedShape {
            shape,
            owners,
            ends,
            steps,
        })
    }

    /// The shape.
    pub fn shape(&self) -> &'a Shape
        ensures value { result.now ≡ self.now }
        ensures form { IsWellFormed self.now }
        ensures apart { TripleDisjoint (alphabets_of self.now.parts) }
    {
        self.shape
    }

    /// The component with this number.
    pub fn component(&self, number: u32) -> Component<'_>
        requires { number < length self.now.parts }
        ensures shape { result.shape.now ≡ self.now }
        ensures number { result.number ≡ number }
    {
        Component {
            shape: self,
            number,
        }
    }

    // The part with this number.
    pub(crate) fn part(&self, part: u32) -> &'a Part
        requires { part < length self.now.parts }
        ensures value { result.now ≡ part_at self.now.parts part }
        ensures form { HasForm result.now }
    {
        &self.shape().parts()[part as usize]
    }

    // For each node of the part the steps that an observer of shared events has to follow.
    pub(crate) fn rows(&self, part: u32) -> &[Items<(Event, u32)>]
        requires { part < length self.now.parts }
        ensures { HaveEnough self.now.vocabulary (part_at self.now.parts part).table result.now }
    {
        self.steps[part as usize].as_slice()
    }

    /// The link in this place.
    pub fn link(&self, link: u32) -> &'a Link
        requires { link < length self.now.links }
        ensures { result.now ≡ link_at self.now link }
    {
        &self.shape().links()[link as usize]
    }

    /// For each event 1 + the link that has it, 0 where none has.
    pub fn owners(&self) -> &[u32]
        ensures { AreOwners self.now result.now }
    {
        self.owners.as_slice()
    }

    /// The link that has the event.
    pub fn owner(&self, event: Event) -> Option<u32>
        ensures found { (l : ℕ) → result ≡ Some l → IsOwner self.now l event }
        ensures owned { (l : ℕ) → IsOwner self.now l event → result ≡ Some l }
    {
        link_of(self.owners(), event)
    }

    // The links of the part in this place, in rising order.
    pub(crate) fn links(&self, part: u32) -> &[u32]
        requires { part < length self.now.parts }
        ensures { result.now ≡ ends_of self.now part }
    {
        self.ends[part as usize].as_slice()
    }
}
