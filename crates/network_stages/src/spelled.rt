//! A program that spells a network.

ghost use Rattle.std.specs.Prelude.{◌≡◌, ◌≤◌, IfErr, IfNone, IfOk, IfSome, Some, length, slice_get};
ghost use Rattle.dl_limits.specs.declared.TheConstants.{MOST_COMPONENTS};
ghost use Rattle.csp_tables.specs.Network.{leaves};
ghost use Rattle.csp_base.specs.Stops.{Tells};
ghost use Rattle.network_stages.specs.Prelude.{IsNetworkOf, IsSpelled, network_at, HasNoNetwork, SpellsNone};
ghost use Rattle.script_sizes.specs.Size.{AreSmall};

use containers::{Boxed, Key};
use csp_base::Stop;
use csp_program::Program;
use csp_resolve::resolve;
use csp_text::Script;
use network_layout::{Layout, Seat, layout};
use report::{Answer, Refusal, Side, TextFault, Verdict};
use std::alloc::Global;
use std::marker::Model;

/// A program that spells a network, with the components of the network. Contracts see it as the network.
pub struct Spelled {
    program: Boxed<Program>,
    layout: Layout,
}

impl Drop for Spelled {
    fn drop(self) {
        let Spelled { program, layout } = self;
    }
}

impl Model for Spelled {
    ghost use Rattle.std.specs.Coded.{codes};
    ghost use Rattle.csp_program.specs.contracts.expressions.Expr as expression;
    ghost use Rattle.csp_program.specs.contracts.networks.Net as network;
    ghost use Rattle.csp_program.specs.contracts.processes.Proc as process;
    ghost use Rattle.network_stages.specs.Networks.{AreSeatsOf, Network, network_at};
    ghost use Rattle.network_stages.specs.TreeCode.{tree_code};

    ghost Value = { Network };

    ghost coded = { Prim.hlevel
        (codes, tree_code, expression.the_row.coded, network.the_row.coded, process.the_row.coded) };

    ghost view = { λ s. network_at s.program };

    ghost invariant = { λ s. AreSeatsOf s.program s.layout };
}

impl Spelled {
    /// The program.
    pub fn program(&self) -> &Program
        ensures program { result.now ≡ self.now.program }
        ensures spelled { IsSpelled self.now }
    {
        let _ = &self.layout;
        self.program.get()
    }

    /// The components, from left to right.
    pub fn layout(&self) -> &Layout
        ensures layout { result.now ≡ leaves self.now.tree }
        ensures spelled { IsSpelled self.now }
    {
        let _ = &self.program;
        &self.layout
    }

    /// The same as a list.
    pub fn seats(&self) -> &[Seat]
        ensures seats { result.now ≡ leaves self.now.tree }
        ensures few { length result.now ≤ MOST_COMPONENTS }
    {
        self.layout.seats()
    }

    /// The program alone.
    pub fn into_program(self) -> Boxed<Program>
        ensures { result ≡ self.program }
    {
        let Spelled {
            program,
            layout: _layout,
        } = self;
        program
    }
}

// The network of a program, of the text of this side.
fn lay_out(alloc: Global, side: Side, program: Boxed<Program>) -> Result<Spelled, Stop<Answer>>
    ensures network { IfOk result (λ made. made ≡ network_at program) }
    ensures spelled { IfOk result IsSpelled }
    ensures told { IfErr result (Tells (SpellsNone side program)) }
{
    match layout(alloc, program.get()) {
        Ok(layout) => Ok(Spelled { program, layout }),
        Err(Stop::NoMemory) => Err(Stop::NoMemory),
        Err(Stop::Told(fault)) => {
            let verdict = Verdict::Refused(side, Refusal::Network(fault));
            Err(Stop::Told(Answer::Decided(program, verdict)))
        }
    }
}

/// The network of a script that holds no more than a text within the limit spells, or why it has none: it is the script of the text of this side. Names are
/// found under this key, which the text makes.
pub fn spell_network(
    alloc: Global,
    key: Key,
    side: Side,
    script: &Script,
) -> Result<Spelled, Stop<Answer>>
    requires { AreSmall script.now.decls }
    ensures ok { IfOk result (IsNetworkOf script.now) }
    ensures told { IfErr result (Tells (HasNoNetwork side script.now)) }
{
    match resolve(alloc, key, script) {
        Ok(program) => lay_out(alloc, side, program),
        Err(Stop::Told(fault)) => {
            Err(Stop::Told(Answer::NoProgram(side, TextFault::Unresolved(fault))))
        }
        Err(Stop::NoMemory) => Err(Stop::NoMemory),
    }
}
