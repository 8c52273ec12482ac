//! The normal table of one component of a network.

ghost use Rattle.std.specs.Prelude.{◌≡◌, IfErr, IfOk, Some, slice_get};
ghost use Rattle.csp_tables.specs.Network.{leaves};
ghost use Rattle.csp_base.specs.Stops.{Tells};
ghost use Rattle.report.specs.Stops.{Answers};
ghost use Rattle.tabulation.specs.Tabulated.{HasNoComponent, IsTabulated};

use csp_base::Stop;
use network_stages::{Chosen, Spelled, make_part};
use report::{Done, Halt, Refusal};
use std::alloc::Global;

// The component with the number `index`, or that none has it.
fn choose(network: &Spelled, index: u32) -> Result<Chosen<'_>, Stop<Refusal>>
    ensures program { IfOk result (λ chosen. chosen.program ≡ network.now.program) }
    ensures number { IfOk result (λ chosen. chosen.number ≡ index) }
    ensures there { IfOk result (λ chosen. slice_get (leaves network.now.tree) index ≡ Some chosen.component) }
    ensures told { IfErr result (Tells (HasNoComponent network.now index)) }
{
    match network.component(index) {
        Some(chosen) => Ok(chosen),
        None => Err(Stop::Told(Refusal::NoComponent {
            count: network.seats().len() as u32,
        })),
    }
}

/// The normal table of the component with the number `index`, which has the whole room for itself, or why there is none.
pub fn tabulate(alloc: Global, index: u32, network: &Spelled) -> Result<Done, Halt>
    ensures { Answers (IsTabulated network.now index) result }
{
    let chosen = choose(network, index)?;
    let part = make_part(alloc, &chosen)?;
    Ok(Done::Table {
        component: index,
        count: network.seats().len() as u32,
        part,
    })
}
