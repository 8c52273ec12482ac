//! Programs: what a script says once each of its names has its meaning.

ghost use Rattle.std.specs.Prelude.{◌≡◌};
ghost use Rattle.csp_program.specs.InOrder.{IsInOrder};

use crate::expressions::Expr;
use crate::networks::Net;
use crate::processes::Proc;
use containers::{Items, Key};
use csp_atoms::{Atom, AtomSet};
use csp_base::Name;
use std::marker::Model;

/// An event of the event table.
pub struct EventInfo {
    /// The number of its channel.
    pub channel: u32,
    /// The values of its fields.
    pub fields: Items<Atom>,
}

impl Drop for EventInfo {
    fn drop(self) {
        let EventInfo { channel, fields } = self;
    }
}

/// A channel.
pub struct Channel {
    /// Its name.
    pub name: Name,
    /// The type of each field, as it is written.
    pub types: Items<Expr>,
    /// The values of each field, once they are known.
    pub fields: Option<Items<AtomSet>>,
    /// The number of its first event: how many events the channels before it have.
    pub first: u32,
}

impl Drop for Channel {
    fn drop(self) {
        let Channel {
            name,
            types,
            fields,
            first,
        } = self;
    }
}

/// What a definition's name stands for.
pub enum Body {
    /// A value.
    Datum(Expr),
    /// A set with a name.
    Nametype(Expr),
    /// The constants with these numbers.
    Datatype(Items<u32>),
    /// A process.
    Process(Proc),
    /// A network.
    Network(Net),
}

impl Drop for Body {
    fn drop(self) {
        match self {
            Body::Datum(_) => {}
            Body::Nametype(_) => {}
            Body::Datatype(_) => {}
            Body::Process(_) => {}
            Body::Network(_) => {}
        }
    }
}

/// A definition.
pub struct Def {
    /// Its name.
    pub name: Name,
    /// The numbers of its parameters.
    pub params: Items<u32>,
    /// What the name stands for.
    pub body: Body,
}

impl Drop for Def {
    fn drop(self) {
        let Def { name, params, body } = self;
    }
}

/// The roles of a process, by the numbers of the definitions that the annotation names.
#[derive(Clone, Copy)]
pub struct RolesNote {
    /// The process.
    pub process: u32,
    /// The requests that it makes.
    pub creq: u32,
    /// The acknowledgements that it waits for.
    pub cack: u32,
    /// The requests that it serves.
    pub sreq: u32,
    /// The acknowledgements that it gives.
    pub sack: u32,
}

/// A process that is a resource, by the numbers of the definitions that the annotation names.
#[derive(Clone, Copy)]
pub struct ResourceNote {
    /// The process.
    pub process: u32,
    /// The events by which a user acquires it.
    pub acquire: u32,
    /// The events by which its user releases it.
    pub release: u32,
}

/// What a program holds.
pub struct Content {
    /// The event table.
    pub events: Items<EventInfo>,
    /// The channels.
    pub channels: Items<Channel>,
    /// The names of the datatypes' constants.
    pub consts: Items<Name>,
    /// The definitions.
    pub defs: Items<Def>,
    /// The annotations of roles.
    pub roles: Items<RolesNote>,
    /// The annotations of resources.
    pub resources: Items<ResourceNote>,
    /// The asserted network.
    pub root: Net,
}

impl Drop for Content {
    fn drop(self) {
        let Content {
            events,
            channels,
            consts,
            defs,
            roles,
            resources,
            root,
        } = self;
    }
}

/// A program that is in order: what it holds fits together.
pub struct Program {
    content: Content,
    key: Key,
}

impl Drop for Program {
    fn drop(self) {
        let Program { content, key } = self;
    }
}

impl Model for Program {
    ghost use Rattle.std.specs.Coded.{codes};
    ghost use Rattle.csp_program.specs.contracts.expressions.Expr as expression;
    ghost use Rattle.csp_program.specs.contracts.networks.Net as network;
    ghost use Rattle.csp_program.specs.contracts.processes.Proc as process;
    ghost use Rattle.csp_program.specs.InOrder.{IsInOrder};
    ghost use Rattle.csp_program.specs.declared.programs.Content.{Content};

    ghost Value = { Content };

    ghost coded = { Prim.hlevel (codes, expression.the_row.coded, network.the_row.coded, process.the_row.coded) };

    ghost view = { λ p. p.content };

    ghost invariant = { λ p. IsInOrder p.content };
}

impl Program {
    /// The program that holds `content`. What is made of it is found by hashes under this key.
    pub fn new(content: Content, key: Key) -> Program
        requires in_order { IsInOrder content }
        ensures { result ≡ content }
    {
        Program { content, key }
    }

    /// The key under which what is made of the program is found by its hash.
    pub fn key(&self) -> Key {
        self.key
    }

    /// What the program holds.
    pub fn content(&self) -> &Content
        ensures content { result.now ≡ self.now }
        ensures in_order { IsInOrder result.now }
    {
        &self.content
    }
}
