//! Scripts: what a text declares, in its order.

use crate::token::{ResourceNames, RolesNames};
use crate::tree::Tree;
use containers::Items;
use csp_base::Name;

/// A declaration of a script.
pub enum Decl {
    /// `channel a, b : S.T`: the channels, and the types of their fields.
    Channel(Items<Name>, Items<Tree>),
    /// `datatype D = a | b`
    Datatype(Name, Items<Name>),
    /// `nametype N = S`
    Nametype(Name, Tree),
    /// `F(x, y) = P`, without parentheses where there are no parameters.
    Define(Name, Items<Name>, Tree),
    /// `assert P :[deadlock free]`: the name or call that is asserted.
    Assert(Tree),
    /// `--@ roles` and five names.
    Roles(RolesNames),
    /// `--@ resource` and three names.
    Resource(ResourceNames),
}

impl Drop for Decl {
    fn drop(self) {
        match self {
            Decl::Channel(_, _) => {}
            Decl::Datatype(_, _) => {}
            Decl::Nametype(_, _) => {}
            Decl::Define(_, _, _) => {}
            Decl::Assert(_) => {}
            Decl::Roles(_) => {}
            Decl::Resource(_) => {}
        }
    }
}

/// A script: its declarations in the order of the text.
pub struct Script {
    /// The declarations.
    pub decls: Items<Decl>,
}

impl Drop for Script {
    fn drop(self) {
        let Script { decls } = self;
    }
}
