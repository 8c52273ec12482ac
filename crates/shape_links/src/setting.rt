//! A shape with its resources.

ghost use Rattle.std.specs.Prelude.{◌≡◌, ◌<◌, ◌≤◌, ℕ, Some, IfOk, length};
ghost use Rattle.dl_limits.specs.declared.TheConstants.{MOST_COMPONENTS};
ghost use Rattle.csp_tables.specs.Prelude.{TripleDisjoint, alphabets_of, use_at, IsWellFormed, link_at};
ghost use Rattle.shape_links.specs.Links.{IsOwner};

use crate::component::Component;
use crate::sorted_shape::SortedShape;
use csp_base::{Event, Made};
use csp_tables::{Link, Shape, UseSets};
use std::alloc::Global;
use std::marker::Model;

/// A shape, sorted out, with what is noted of each part's use as a resource. Contracts see it as the shape and what is noted.
#[derive(Drop)]
pub struct Setting<'a> {
    sorted: SortedShape<'a>,
    uses: &'a [UseSets],
}

impl<'a> Model for Setting<'a> {
    ghost use Rattle.std.specs.Prelude.{◌≡◌, length};
    ghost use Rattle.shape_links.specs.Setting.{Setting as SettingValue};

    ghost Value = { SettingValue };

    ghost view = { λ s. record { shape = s.sorted; uses = s.uses.now } };

    ghost invariant = { λ s. length s.uses.now ≡ length s.sorted.parts };
}

impl<'a> Setting<'a> {
    /// The shape, sorted out, with these uses of its parts.
    pub fn new(alloc: Global, shape: &'a Shape, uses: &'a [UseSets]) -> Made<Setting<'a>>
        requires form { IsWellFormed shape.now }
        requires apart { TripleDisjoint (alphabets_of shape.now.parts) }
        requires uses { length uses.now ≡ length shape.now.parts }
        ensures { IfOk result (λ setting. setting ≡ record { shape = shape.now; uses = uses.now }) }
    {
        let sorted = SortedShape::new(alloc, shape)?;
        Ok(Setting { sorted, uses })
    }

    /// The shape, sorted out.
    pub fn sorted_shape(&self) -> &SortedShape<'a>
        ensures { result.now ≡ self.now.shape }
    {
        &self.sorted
    }

    /// The shape.
    pub fn shape(&self) -> &'a Shape
        ensures value { result.now ≡ self.now.shape }
        ensures form { IsWellFormed self.now.shape }
        ensures apart { TripleDisjoint (alphabets_of self.now.shape.parts) }
        ensures uses { length self.now.uses ≡ length self.now.shape.parts }
    {
        self.sorted.shape()
    }

    // What is noted of each part.
    fn all_uses(&self) -> &'a [UseSets]
        ensures value { result.now ≡ self.now.uses }
        ensures count { length self.now.uses ≡ length self.now.shape.parts }
    {
        self.uses
    }

    /// How many parts there are.
    pub fn count(&self) -> u32
        ensures value { result ≡ length self.now.shape.parts }
        ensures few { result ≤ MOST_COMPONENTS }
    {
        self.shape().parts().len() as u32
    }

    /// The component with this number.
    pub fn component(&self, number: u32) -> Component<'_>
        requires { number < length self.now.shape.parts }
        ensures shape { result.shape.now ≡ self.now.shape }
        ensures number { result.number ≡ number }
    {
        self.sorted.component(number)
    }

    /// What is noted of the part.
    pub fn uses(&self, part: u32) -> &UseSets
        requires { part < length self.now.shape.parts }
        ensures { result.now ≡ use_at self.now.uses part }
    {
        &self.all_uses()[part as usize]
    }

    /// The link in this place.
    pub fn link(&self, link: u32) -> &'a Link
        requires { link < length self.now.shape.links }
        ensures { result.now ≡ link_at self.now.shape link }
    {
        self.sorted.link(link)
    }

    /// The link that has the event.
    pub fn owner(&self, event: Event) -> Option<u32>
        ensures found { (l : ℕ) → result ≡ Some l → IsOwner self.now.shape l event }
        ensures owned { (l : ℕ) → IsOwner self.now.shape l event → result ≡ Some l }
    {
        self.sorted.owner(event)
    }
}
