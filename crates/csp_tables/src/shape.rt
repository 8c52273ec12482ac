//! Shapes of networks: the parts, the links between them, and the events that they share.

ghost use Rattle.std.specs.Prelude.{◌≡◌, ◌<◌};
ghost use Rattle.csp_tables.specs.Shape.{LinksAreOrdered};

use crate::part::Part;
use csp_base::EventSet;
use std::marker::Model;

/// A link joins two parts of a network, by their numbers. The left number is below the right one.
pub struct Link {
    left: u32,
    right: u32,
    shared: EventSet,
}

impl Drop for Link {
    fn drop(self) {
        let Link {
            left,
            right,
            shared,
        } = self;
    }
}

impl Model for Link {
    ghost use Rattle.std.specs.Prelude.{◌<◌};
    ghost use Rattle.csp_tables.specs.Shape.{Link as LinkValue};

    ghost Value = { LinkValue };

    ghost view = { λ k. record { left = k.left; right = k.right; shared = k.shared } };

    ghost invariant = { λ k. k.left < k.right };
}

impl Link {
    /// The link of these two parts with these events.
    pub fn new(left: u32, right: u32, shared: EventSet) -> Link
        requires { left < right }
        ensures { result ≡ record { left = left; right = right; shared = shared } }
    {
        Link {
            left,
            right,
            shared,
        }
    }

    /// The number of the left part.
    pub fn left(&self) -> u32
        ensures value { result ≡ self.now.left }
        ensures ordered { self.now.left < self.now.right }
    {
        self.left
    }

    /// The number of the right part.
    pub fn right(&self) -> u32
        ensures value { result ≡ self.now.right }
        ensures ordered { self.now.left < self.now.right }
    {
        self.right
    }

    /// The events of the link.
    pub fn shared(&self) -> &EventSet
        ensures { result.now ≡ self.now.shared }
    {
        &self.shared
    }
}

/// The shape of a network. Its parts and its links are numbered from 0, by numbers below 2 ^ 32. The links rise by their
/// left part, and then by their right one.
pub struct Shape {
    parts: Vec<Part>,
    links: Vec<Link>,
    vocabulary: EventSet,
}

impl Drop for Shape {
    fn drop(self) {
        let Shape {
            parts,
            links,
            vocabulary,
        } = self;
    }
}

impl Model for Shape {
    ghost use Rattle.csp_tables.specs.Shape.{Shape as ShapeValue, LinksAreOrdered};

    ghost Value = { ShapeValue };

    ghost view = { λ s. record { parts = s.parts.items; links = s.links.items; vocabulary = s.vocabulary } };

    ghost invariant = { λ s. LinksAreOrdered
        (record { parts = s.parts.items; links = s.links.items; vocabulary = s.vocabulary }) };
}

impl Shape {
    /// The shape with these parts, links and shared events.
    pub fn new(parts: Vec<Part>, links: Vec<Link>, vocabulary: EventSet) -> Shape
        requires { LinksAreOrdered (record { parts = parts.items; links = links.items; vocabulary = vocabulary }) }
        ensures { result ≡ record { parts = parts.items; links = links.items; vocabulary = vocabulary } }
    {
        Shape {
            parts,
            links,
            vocabulary,
        }
    }

    /// The parts, in the order of their numbers.
    pub fn parts(&self) -> &[Part]
        ensures value { result.now ≡ self.now.parts }
        ensures order { LinksAreOrdered self.now }
    {
        self.parts.as_slice()
    }

    /// The links, in the order of their numbers.
    pub fn links(&self) -> &[Link]
        ensures value { result.now ≡ self.now.links }
        ensures order { LinksAreOrdered self.now }
    {
        self.links.as_slice()
    }

    /// The events that two parts or more share.
    pub fn vocabulary(&self) -> &EventSet
        ensures { result.now ≡ self.now.vocabulary }
    {
        &self.vocabulary
    }
}
