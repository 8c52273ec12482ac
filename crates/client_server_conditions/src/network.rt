//! A shape with the roles of its components, once each link is known to have a client.

ghost use Rattle.std.specs.Prelude.{◌≡◌, ◌<◌, true, false, IsTrue, IfErr, IfOk, length};
ghost use Rattle.csp_base.specs.Prelude.{Tells};
ghost use Rattle.csp_tables.specs.Prelude.{TripleDisjoint, alphabets_of, role_at, IsWellFormed, is_end};
ghost use Rattle.shape_links.specs.Links.{ends_of};
ghost use Rattle.client_server_conditions.specs.Network.{Asks, Grants, IsLinked};
ghost use Rattle.design_rules.specs.Rules.{BreaksClientServer};

use crate::clients::sides;
use crate::parted::check_parted;
use csp_base::Stop;
use csp_tables::{RoleSets, Shape};
use design_rules::RuleFault;
use shape_links::SortedShape;
use std::alloc::Global;
use std::marker::Model;

/// A shape with its roles, in which S1 and S2 hold, sorted out, with the client of each link. Contracts see it as the shape and the
/// roles.
#[derive(Drop)]
pub struct Network<'a> {
    sorted: SortedShape<'a>,
    roles: &'a [RoleSets],
    sides: Vec<bool>,
}

impl<'a> Model for Network<'a> {
    ghost use Rattle.std.specs.Prelude.{length};
    ghost use Rattle.client_server_conditions.specs.Network.{Network as NetworkValue, IsLinked};
    ghost use Rattle.client_server_conditions.specs.Sides.{AreSides};

    ghost Value = { NetworkValue };

    ghost view = { λ n. record { shape = n.sorted; roles = n.roles.now } };

    ghost invariant = { λ n. IsLinked (record { shape = n.sorted; roles = n.roles.now })
        × AreSides n.sorted n.roles.now (length n.sorted.links) n.sides.items };
}

impl<'a> Network<'a> {
    /// The network, or the component or the link that breaks S1 or S2.
    pub fn new(
        alloc: Global,
        shape: &'a Shape,
        roles: &'a [RoleSets],
    ) -> Result<Network<'a>, Stop<RuleFault>>
        requires form { IsWellFormed shape.now }
        requires apart { TripleDisjoint (alphabets_of shape.now.parts) }
        requires roles { length roles.now ≡ length shape.now.parts }
        ensures network { IfOk result (λ network. network ≡ record { shape = shape.now; roles = roles.now }) }
        ensures fault { IfErr result (Tells (λ fault. BreaksClientServer shape.now roles.now fault)) }
    {
        check_parted(alloc, shape, roles)?;
        let sides = sides(alloc, shape, roles)?;
        let sorted = SortedShape::new(alloc, shape)?;
        Ok(Network {
            sorted,
            roles,
            sides,
        })
    }

    /// The shape, sorted out.
    pub fn sorted_shape(&self) -> &SortedShape<'a>
        ensures { result.now ≡ self.now.shape }
    {
        &self.sorted
    }

    /// The shape.
    pub fn shape(&self) -> &'a Shape
        ensures value { result.now ≡ self.now.shape }
        ensures linked { IsLinked self.now }
    {
        self.sorted.shape()
    }

    /// The roles of each part.
    pub fn all_roles(&self) -> &'a [RoleSets]
        ensures value { result.now ≡ self.now.roles }
        ensures count { length self.now.roles ≡ length self.now.shape.parts }
    {
        self.roles
    }

    /// The roles of the part in this place.
    pub fn roles(&self, part: u32) -> &'a RoleSets
        requires { part < length self.now.shape.parts }
        ensures { result.now ≡ role_at self.now.roles part }
    {
        &self.all_roles()[part as usize]
    }

    /// The links of the part in this place, in rising order.
    pub fn links(&self, part: u32) -> &[u32]
        requires { part < length self.now.shape.parts }
        ensures { result.now ≡ ends_of self.now.shape part }
    {
        self.sorted.component(part).links()
    }

    /// Whether the part is the client on the link; it is the server elsewhere.
    pub fn asks(&self, part: u32, link: u32) -> bool
        requires link { link < length self.now.shape.links }
        requires end { IsTrue (is_end self.now.shape part link) }
        ensures client { result ≡ true → Asks self.now part link }
        ensures server { result ≡ false → Grants self.now part link }
    {
        (self.sorted.shape().links()[link as usize].left() == part) == self.sides[link as usize]
    }
}
