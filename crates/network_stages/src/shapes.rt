//! A network with its shape.

ghost use Rattle.std.specs.Prelude.{◌≡◌, ◌≤◌, IfErr, IfOk, length};
ghost use Rattle.dl_limits.specs.declared.TheConstants.{MOST_COMPONENTS};
ghost use Rattle.csp_tables.specs.Prelude.{TripleDisjoint, alphabets_of, IsLinked};
ghost use Rattle.csp_base.specs.Stops.{Tells};
ghost use Rattle.network_stages.specs.Prelude.{IsSpelled, AreLinksBefore, IsVocabulary, IsApart, ShareEvent};

use crate::links::links_of_rows;
use crate::parts::Parted;
use crate::rows::shared_rows;
use crate::spelled::Spelled;
use csp_base::{EventSet, Made, NoMemory, Stop};
use csp_tables::{Link, Part, Shape};
use network_layout::triple_disjoint;
use report::Shortfall;
use std::alloc::Global;
use std::marker::Model;

/// A network with its shape, no event of it being in three alphabets. Contracts see it as these two.
pub struct Shaped<'a> {
    network: &'a Spelled,
    shape: Shape,
}

impl<'a> Drop for Shaped<'a> {
    fn drop(self) {
        let Shaped { network, shape } = self;
    }
}

impl<'a> Model for Shaped<'a> {
    ghost use Rattle.std.specs.Coded.{codes};
    ghost use Rattle.csp_program.specs.contracts.expressions.Expr as expression;
    ghost use Rattle.csp_program.specs.contracts.networks.Net as net;
    ghost use Rattle.csp_program.specs.contracts.processes.Proc as process;
    ghost use Rattle.network_stages.specs.Shapes.{IsApart};
    ghost use Rattle.network_stages.specs.TreeCode.{tree_code};
    ghost use Rattle.network_stages.specs.Views.{ShapedNetwork};

    ghost Value = { ShapedNetwork };

    ghost coded = { Prim.hlevel
        (codes, tree_code, expression.the_row.coded, net.the_row.coded, process.the_row.coded) };

    ghost view = { λ s. record { network = s.network.now; shape = s.shape } };

    ghost invariant = { λ s. IsApart s.network.now s.shape };
}

impl<'a> Shaped<'a> {
    /// The network.
    pub fn network(&self) -> &'a Spelled
        ensures { result.now ≡ self.now.network }
    {
        self.network
    }

    /// Its shape.
    pub fn shape(&self) -> &Shape
        ensures shape { result.now ≡ self.now.shape }
        ensures apart { IsApart self.now.network self.now.shape }
    {
        let _ = self.network;
        &self.shape
    }
}

// The links of the parts, and their vocabulary.
fn links_of_parts(alloc: Global, parts: &[Part]) -> Made<(Vec<Link>, EventSet)>
    requires most { length parts.now ≤ MOST_COMPONENTS }
    requires apart { TripleDisjoint (alphabets_of parts.now) }
    ensures links { IfOk result (λ made. AreLinksBefore parts.now (length parts.now) 0 made.0.items) }
    ensures vocabulary { IfOk result (λ made. IsVocabulary parts.now made.1) }
{
    let rows = shared_rows(alloc, parts)?;
    links_of_rows(alloc, &rows)
}

// The shape of these parts: its links join the parts that share events, and its vocabulary is the shared events.
//
// It takes time in proportion to the sizes of the alphabets and the number of the greatest event (not proved).
fn shape_of(alloc: Global, parts: Vec<Part>) -> Made<Shape>
    requires least { 1 ≤ length parts.items }
    requires most { length parts.items ≤ MOST_COMPONENTS }
    requires apart { TripleDisjoint (alphabets_of parts.items) }
    ensures parts { IfOk result (λ made. made.parts ≡ parts.items) }
    ensures linked { IfOk result IsLinked }
{
    let (links, vocabulary) = links_of_parts(alloc, &parts)?;
    Ok(Shape::new(parts, links, vocabulary))
}

/// A network of which no event is in three alphabets with its shape, from the parts of its components; or that an event is.
pub fn make_shape<'a>(alloc: Global, parted: Parted<'a>) -> Result<Shaped<'a>, Stop<Shortfall>>
    ensures network { IfOk result (λ made. made.network ≡ parted.entry.network) }
    ensures apart { IfOk result (λ made. IsApart parted.entry.network made.shape) }
    ensures told { IfErr result (Tells (ShareEvent parted.entry.network)) }
{
    let network = parted.network();
    match triple_disjoint(alloc, network.layout()) {
        Ok(()) => {
            let shape = shape_of(alloc, parted.into_parts())?;
            Ok(Shaped { network, shape })
        }
        Err(Stop::NoMemory) => Err(Stop::NoMemory),
        Err(Stop::Told(fault)) => Err(Stop::Told(Shortfall::NotTripleDisjoint {
            event: fault.event,
            components: fault.parts,
        })),
    }
}
