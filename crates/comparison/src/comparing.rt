//! The verdict on a network and its specification.

ghost use Rattle.std.specs.Prelude.{◌≡◌, List, IfErr, IfOk, OnOk};
ghost use Rattle.network_stages.specs.Prelude.{HasSilentBound, HasParts, HasTables};
ghost use Rattle.network_stages.specs.declared.component_tables.ComponentTable.{ComponentTable};
ghost use Rattle.report.specs.Stops.{Answers, HaltsWith};
ghost use Rattle.comparison.specs.Compared.{IsCompared, PartsOr};

use crate::alphabets::check_alphabets;
use crate::conforming::check_components;
use crate::events::check_events;
use network_stages::{Parted, Spelled, make_parts, make_tables};
use report::{Done, Halt, Side, refuse};
use std::alloc::Global;

/// Whether the network conforms to its specification, component by component; and what is told where it does not.
pub fn compare_networks(alloc: Global, network: &Spelled, specified: &Spelled) -> Result<Done, Halt>
    ensures { Answers (IsCompared network.now specified.now) result }
{
    check_events(alloc, network.program(), specified.program())?;
    check_alphabets(network.layout(), specified.layout())?;
    let (parted, bound) = parts_of(alloc, Side::Script, network)?;
    let (others, _) = parts_of(alloc, Side::Specification, specified)?;
    check_components(alloc, &parted, &others)?;
    Ok(Done::Conforms {
        components: network.seats().len() as u32,
        bound,
    })
}

// The parts of the network of this side, and its silent bound.
fn parts_of<'a>(alloc: Global, side: Side, network: &'a Spelled) -> Result<(Parted<'a>, u32), Halt>
    ensures network { IfOk result (λ made. made.0.network ≡ network.now) }
    ensures tables { OnOk result ((tables : List ComponentTable) × HasTables network.now tables) }
    ensures parts { IfOk result (λ made. HasParts network.now made.0.parts) }
    ensures bound { IfOk result (λ made. HasSilentBound network.now made.1) }
    ensures told { IfErr result (HaltsWith (PartsOr side network.now (λ v. ⊥))) }
{
    match make_tables(alloc, network) {
        Ok(tabled) => match make_parts(alloc, &tabled) {
            Ok(parted) => Ok((parted, tabled.silent_bound())),
            Err(stop) => Err(refuse(side, stop)),
        },
        Err(stop) => Err(refuse(side, stop)),
    }
}
