//! Whether a network is busy: whether no component ever comes to accept nothing.

ghost use Rattle.std.specs.Prelude.{◌≡◌, ◌<◌, ◌↔◌, ℕ, [], IfErr, IfNone, IfSome, IsTrue, OnOk, length, get_or};
ghost use Rattle.csp_tables.specs.Prelude.{IsNonEmpty, IsWellFormed, IsBusyShape, node_at};
ghost use Rattle.csp_base.specs.Stops.{Tells};
ghost use Rattle.network_stages.specs.Prelude.{HasEmpty, PartCanStop, CanStop, StaysBusy};

use crate::shapes::Shaped;
use csp_base::{EventSet, Stop};
use csp_tables::{Part, Shape};
use observed_runs::run_to_node;
use report::Shortfall;
use std::alloc::Global;

// Whether one of the sets is empty.
fn has_empty(sets: &[EventSet]) -> bool
    ensures { IsTrue result ↔ HasEmpty sets.now }
{
    for set in sets {
        if set.is_empty() {
            return true;
        }
    }
    false
}

// The first node of the part with an empty acceptance.
fn empty_node(part: &Part) -> Option<u32>
    ensures none { IfNone result ((n k : ℕ) → k < length (node_at part.now.table n).accept
        → IsNonEmpty (get_or (node_at part.now.table n).accept k [])) }
    ensures within { IfSome result (λ n. n < length part.now.table) }
    ensures empty { IfSome result (λ n. HasEmpty (node_at part.now.table n).accept) }
{
    for (number, node) in part.table().nodes().iter().enumerate() {
        if has_empty(node.accept()) {
            return Some(number as u32);
        }
    }
    None
}

// That no part of the shape has an empty acceptance after a run. Where one has, the first such part is told, with such a run.
fn busy(alloc: Global, shape: &Shape) -> Result<(), Stop<Shortfall>>
    requires { IsWellFormed shape.now }
    ensures busy { OnOk result (IsBusyShape shape.now) }
    ensures told { IfErr result (Tells (PartCanStop shape.now)) }
{
    for (place, part) in shape.parts().iter().enumerate() {
        if let Some(node) = empty_node(part) {
            let trace = run_to_node(alloc, part, node)?;
            return Err(Stop::Told(Shortfall::Stops {
                component: place as u32,
                trace,
            }));
        }
    }
    Ok(())
}

/// That no component of the network can stop; or the first one that can.
pub fn check_busy(alloc: Global, shaped: &Shaped<'_>) -> Result<(), Stop<Shortfall>>
    ensures busy { OnOk result (StaysBusy shaped.now.network) }
    ensures told { IfErr result (Tells (CanStop shaped.now.network)) }
{
    busy(alloc, shaped.shape())
}
