//! The longest walks from clients to servers, or a circle of clients.

ghost use Rattle.std.specs.Prelude.{◌≡◌, ◌<◌, ◌⊎◌, ℕ, All, IfErr, IfOk, OnOk, length};
ghost use Rattle.csp_base.specs.Prelude.{Tells};
ghost use Rattle.design_rules.specs.Prelude.{KeepRoles, BreaksClientServer};
ghost use Rattle.digraph.specs.Prelude.{HasNoCircle, HasArc};
ghost use Rattle.client_server_rule.specs.Serving.{HaveHeights, ServesIn, ServesOn};

use client_server_conditions::Network;
use containers::Items;
use csp_base::{Made, NoMemory, Stop};
use design_rules::RuleFault;
use digraph::{Heights, Rows, longest_walks};
use std::alloc::Global;

// For each part the greatest number of arcs in a walk from it to servers.
pub(crate) fn heights(alloc: Global, network: &Network<'_>) -> Result<Heights, Stop<RuleFault>>
    requires { KeepRoles network.now.shape network.now.roles }
    ensures heights { IfOk result (HaveHeights network.now) }
    ensures below { IfOk result (λ heights. All (λ height. height < length network.now.shape.parts) heights) }
    ensures no_circle { OnOk result (HasNoCircle (ServesIn network.now)) }
    ensures fault { IfErr result (Tells (λ fault. BreaksClientServer network.now.shape network.now.roles fault)) }
{
    let rows = arcs(alloc, network)?;
    match longest_walks(alloc, &rows) {
        Ok(heights) => Ok(heights),
        Err(Stop::Told(circle)) => {
            let clients = Items::from_slice(alloc, circle.members())?;
            Err(Stop::Told(RuleFault::ClientsCircle { clients }))
        }
        Err(Stop::NoMemory) => Err(Stop::NoMemory),
    }
}

// An arc from each client to each of its servers.
fn arcs(alloc: Global, network: &Network<'_>) -> Made<Rows>
    ensures count { IfOk result (λ rows. length rows ≡ length network.now.shape.parts) }
    ensures sound { IfOk result (λ rows. (i j : ℕ) → HasArc rows i j → ServesIn network.now i j) }
    ensures complete { IfOk result (λ rows. (i j : ℕ) → ServesIn network.now i j → HasArc rows i j) }
{
    let shape = network.shape();
    let mut rows = Rows::new(alloc, shape.parts().len() as u32)?;
    for link in 0..shape.links().len() {
        arc(&mut rows, network, link as u32)?;
    }
    Ok(rows)
}

// An arc from the client on the link to the server.
fn arc(rows: &mut Rows, network: &Network<'_>, link: u32) -> Made<()>
    requires link { link < length network.now.shape.links }
    requires count { length rows.old ≡ length network.now.shape.parts }
    ensures count { length rows.new ≡ length rows.old }
    ensures sound { OnOk result ((i j : ℕ) → HasArc rows.new i j
        → HasArc rows.old i j ⊎ ServesOn network.now link i j) }
    ensures kept { OnOk result ((i j : ℕ) → HasArc rows.old i j → HasArc rows.new i j) }
    ensures complete { OnOk result ((i j : ℕ) → ServesOn network.now link i j → HasArc rows.new i j) }
{
    let _linked = network.shape();
    let ends = network.sorted_shape().link(link);
    let (left, right) = (ends.left(), ends.right());
    if network.asks(left, link) {
        rows.add_arc(left, right)?;
        return Ok(());
    }
    rows.add_arc(right, left)?;
    Ok(())
}
