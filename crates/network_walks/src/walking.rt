//! The walk of a network.

ghost use Rattle.std.specs.Prelude.{◌≡◌, IfOk};
ghost use Rattle.report.specs.Stops.{Answers};
ghost use Rattle.network_walks.specs.Walked.{IsNetworkWalk, IsWalked, walk_verdict};

use crate::movers::movers;
use containers::Items;
use csp_base::Made;
use network_stages::{Spelled, Tabled, make_tables};
use numbered_walks::{Walk, walk};
use report::{Done, Halt, Verdict};
use std::alloc::Global;
use std::mem::replace;

// The walk of a network by the tables of its components.
fn walk_by_tables(alloc: Global, tabled: &Tabled<'_>, seed: u32, steps: u32) -> Made<Walk>
    ensures { IfOk result (λ made. IsNetworkWalk tabled.now.network seed steps made.moves.items made.is_stuck) }
{
    let network = tabled.network();
    let movers = movers(alloc, network.program(), network.seats(), tabled.tables())?;
    let made = walk(alloc, movers.as_slice(), seed, steps)?;
    Ok(made)
}

// What is told of a walk.
fn done_walk(alloc: Global, mut walk: Walk) -> Result<Done, Halt>
    ensures { Answers (λ v. v ≡ walk_verdict walk.is_stuck walk.moves.items) result }
{
    let moves = Items::from_vec(replace(&mut walk.moves, Vec::new(alloc)));
    if walk.is_stuck {
        Err(Halt::Told(Verdict::Stuck(moves)))
    } else {
        Ok(Done::Walked { moves })
    }
}

/// The walk of a network with this seed and so many steps, or why it has none.
pub fn walk_network(alloc: Global, network: &Spelled, seed: u32, steps: u32) -> Result<Done, Halt>
    ensures { Answers (IsWalked network.now seed steps) result }
{
    let tabled = make_tables(alloc, network)?;
    let made = walk_by_tables(alloc, &tabled, seed, steps)?;
    done_walk(alloc, made)
}
