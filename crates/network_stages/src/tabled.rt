//! A network with the tables of its components.

ghost use Rattle.std.specs.Prelude.{◌≡◌, ◌≤◌, ◌+◌, IfErr, IfOk, length};
ghost use Rattle.dl_limits.specs.declared.TheConstants.{MOST_COMPONENTS};
ghost use Rattle.network_stages.specs.Prelude.{HasSilentBound, HasNoTables, HasTables, HaveNoTables, AreTablesOf};
ghost use Rattle.csp_base.specs.Stops.{Tells};

use crate::bound::silent_bound;
use crate::component_tables::{ComponentTable, tables_from};
use crate::spelled::Spelled;
use csp_base::Stop;
use csp_program::Program;
use network_layout::Seat;
use report::Refusal;
use std::alloc::Global;
use std::marker::Model;

/// A network with the tables of its components, each within the room that those before it leave. Contracts see it as these two.
pub struct Tabled<'a> {
    network: &'a Spelled,
    tables: Vec<ComponentTable>,
}

impl<'a> Drop for Tabled<'a> {
    fn drop(self) {
        let Tabled { network, tables } = self;
    }
}

impl<'a> Model for Tabled<'a> {
    ghost use Rattle.std.specs.Coded.{codes};
    ghost use Rattle.csp_program.specs.contracts.expressions.Expr as expression;
    ghost use Rattle.csp_program.specs.contracts.networks.Net as net;
    ghost use Rattle.csp_program.specs.contracts.processes.Proc as process;
    ghost use Rattle.network_stages.specs.Stages.{HasTables};
    ghost use Rattle.network_stages.specs.TreeCode.{tree_code};
    ghost use Rattle.network_stages.specs.Views.{TabledNetwork};

    ghost Value = { TabledNetwork };

    ghost coded = { Prim.hlevel
        (codes, tree_code, expression.the_row.coded, net.the_row.coded, process.the_row.coded) };

    ghost view = { λ t. record { network = t.network.now; tables = t.tables.items } };

    ghost invariant = { λ t. HasTables t.network.now t.tables.items };
}

impl<'a> Tabled<'a> {
    /// The network.
    pub fn network(&self) -> &'a Spelled
        ensures { result.now ≡ self.now.network }
    {
        self.network
    }

    /// The tables of its components.
    pub fn tables(&self) -> &[ComponentTable]
        ensures tables { result.now ≡ self.now.tables }
        ensures are { HasTables self.now.network self.now.tables }
    {
        let _ = self.network;
        self.tables.as_slice()
    }

    /// The silent bound of the network.
    pub fn silent_bound(&self) -> u32
        ensures { HasSilentBound self.now.network result }
    {
        let network = self.network();
        let _seats = network.seats();
        silent_bound(self.tables())
    }
}

/// The tables of the components of a network, or why one has none.
pub fn make_tables<'a>(alloc: Global, network: &'a Spelled) -> Result<Tabled<'a>, Stop<Refusal>>
    ensures network { IfOk result (λ made. made.network ≡ network.now) }
    ensures tables { IfOk result (λ made. HasTables network.now made.tables) }
    ensures told { IfErr result (Tells (HasNoTables network.now)) }
{
    let tables = tables_from(alloc, network.program(), 0, network.seats())?;
    Ok(Tabled { network, tables })
}
