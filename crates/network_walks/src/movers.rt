//! The components of a network as a walk by their tables needs them.

ghost use Rattle.std.specs.Prelude.{◌≡◌, ◌≤◌, ◌++◌, ◌∷◌, [], IfOk, OnOk, length};
ghost use Rattle.dl_limits.specs.declared.TheConstants.{MOST_COMPONENTS};
ghost use Rattle.network_stages.specs.Tables.{AreTablesOf, HasTable};
ghost use Rattle.network_walks.specs.Tabled.{numbered, one_numbered};

use csp_base::Made;
use csp_program::Program;
use network_layout::Seat;
use network_stages::ComponentTable;
use numbered_walks::Mover;
use std::alloc::Global;

// A component with its table.
fn mover_of<'a>(
    alloc: Global,
    program: &Program,
    seat: &'a Seat,
    table: &'a ComponentTable,
) -> Made<Mover<'a>>
    requires { HasTable program.now seat.now table.now }
    ensures { IfOk result (λ made. made ≡ one_numbered seat.now table.now) }
{
    Mover::new(alloc, seat.alphabet(), &table.local.table)
}

// Adds a component.
fn add<'a>(made: &mut Vec<Mover<'a>>, mover: Mover<'a>) -> Made<()>
    ensures { OnOk result (made.new.items ≡ made.old.items ++ mover.entry ∷ []) }
{
    made.push(mover)?;
    Ok(())
}

// The components with their tables.
pub(crate) fn movers<'a>(
    alloc: Global,
    program: &Program,
    seats: &'a [Seat],
    tables: &'a [ComponentTable],
) -> Made<Vec<Mover<'a>>>
    requires tables { AreTablesOf program.now seats.now tables.now }
    requires few { length seats.now ≤ MOST_COMPONENTS }
    ensures { IfOk result (λ made. made.items ≡ numbered seats.now tables.now) }
{
    let mut made = Vec::new(alloc);
    for place in 0..seats.len() {
        let mover = mover_of(alloc, program, &seats[place], &tables[place])?;
        add(&mut made, mover)?;
    }
    Ok(made)
}
