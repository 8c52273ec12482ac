//! The theorem about rankings as a call: from what a walk has found of a program to two numbers of its network, which is live.

ghost use Rattle.std.specs.Prelude.{◌≡◌};
ghost use Rattle.csp_tables.specs.Prelude.{Falls, Fits};
ghost use Rattle.network_stages.specs.Prelude.{AreSeatsOf, HasTables, IsApart, StaysBusy, network_at};
ghost use Rattle.judgement.specs.Heart.{IsProved, bound_of};

use csp_program::Program;
use csp_tables::{Ranking, Shape};
use network_layout::Layout;
use network_stages::{ComponentTable, Shaped, Tabled};
use std::marker::Model;

/// A network that is free of deadlock, in two numbers. Only `conclude` makes one.
#[derive(Drop)]
pub struct Proved {
    components: u32,
    bound: u32,
}

impl Model for Proved {
    ghost use Rattle.judgement.specs.Heart.{Proved as ProvedNumbers};

    ghost Value = { ProvedNumbers };

    ghost view = { λ p. record { components = p.components; bound = p.bound } };
}

impl Proved {
    /// How many components the network has.
    pub fn components(&self) -> u32
        ensures { result ≡ self.now.components }
    {
        self.components
    }

    /// The greatest number of silent steps that follow one another in the network.
    pub fn bound(&self) -> u32
        ensures { result ≡ self.now.bound }
    {
        self.bound
    }
}

/// Concludes that the network of a program is live, and returns its number of components and its silent bound. It takes no memory.
///
/// The layout and the tables are those of the program, the bound is that of the tables, and the shape is that of the network. No event is in three
/// alphabets, and no component can stop. The ranking has the numbers that the tables of the shape ask for, and falls along each ungranted request.
pub fn conclude(
    program: &Program,
    layout: &Layout,
    tables: &[ComponentTable],
    bound: u32,
    shape: &Shape,
    ranking: &Ranking,
) -> Proved
    requires layout { AreSeatsOf program.now layout.now }
    requires tables { HasTables (network_at program.now) tables.now }
    requires bound { bound ≡ bound_of tables.now }
    requires shape { IsApart (network_at program.now) shape.now }
    requires busy { StaysBusy (network_at program.now) }
    requires fits { Fits shape.now.parts ranking.now }
    requires falls { Falls shape.now.parts ranking.now }
    // The network of the program has this number of components, and is live with this bound, which is its silent bound.
    ensures { IsProved (network_at program.now) result }
{
    Proved {
        components: layout.seats().len() as u32,
        bound,
    }
}

/// `conclude` for the stages of a walk over one network, which hold that their tables and their shape are those of its program.
pub fn conclude_stages(tabled: &Tabled<'_>, shaped: &Shaped<'_>, ranking: &Ranking) -> Proved
    requires network { tabled.now.network ≡ shaped.now.network }
    requires busy { StaysBusy shaped.now.network }
    requires fits { Fits shaped.now.shape.parts ranking.now }
    requires falls { Falls shaped.now.shape.parts ranking.now }
    ensures { IsProved shaped.now.network result }
{
    let network = shaped.network();
    conclude(
        network.program(),
        network.layout(),
        tabled.tables(),
        tabled.silent_bound(),
        shaped.shape(),
        ranking,
    )
}
