//! One component of a network, alone with the whole room.

ghost use Rattle.std.specs.Prelude.{◌≡◌, ◌≤◌, ◌<◌, ◌∷◌, [], IfErr, IfNone, IfOk, IfSome, Some, length, slice_get};
ghost use Rattle.csp_tables.specs.Network.{leaves};
ghost use Rattle.csp_base.specs.Stops.{Tells};
ghost use Rattle.network_stages.specs.Prelude.{ArePartsBy, HasNoPart};

use crate::component_tables::tables_from;
use crate::parts::part_of;
use crate::spelled::Spelled;
use csp_base::Stop;
use csp_program::Program;
use csp_tables::Part;
use network_layout::Seat;
use report::Refusal;
use std::alloc::Global;
use std::marker::Model;
use std::slice;

/// One component of a network, with its number. Contracts see it as the program, the number and the component.
pub struct Chosen<'a> {
    program: &'a Program,
    number: u32,
    seat: &'a Seat,
}

impl<'a> Drop for Chosen<'a> {
    fn drop(self) {
        let Chosen {
            program,
            number,
            seat,
        } = self;
    }
}

impl<'a> Model for Chosen<'a> {
    ghost use Rattle.std.specs.Prelude.{◌<◌};
    ghost use Rattle.std.specs.Coded.{codes};
    ghost use Rattle.dl_limits.specs.declared.TheConstants.{MOST_COMPONENTS};
    ghost use Rattle.csp_program.specs.contracts.expressions.Expr as expression;
    ghost use Rattle.csp_program.specs.contracts.networks.Net as net;
    ghost use Rattle.csp_program.specs.contracts.processes.Proc as process;
    ghost use Rattle.network_stages.specs.Views.{ChosenComponent};

    ghost Value = { ChosenComponent };

    ghost coded = { Prim.hlevel (codes, expression.the_row.coded, net.the_row.coded, process.the_row.coded) };

    ghost view = { λ c. record { program = c.program.now; number = c.number; component = c.seat.now } };

    ghost invariant = { λ c. c.number < MOST_COMPONENTS };
}

impl Spelled {
    /// The component with this number, if there is one.
    pub fn component(&self, number: u32) -> Option<Chosen<'_>>
        ensures program { IfSome result (λ chosen. chosen.program ≡ self.now.program) }
        ensures number { IfSome result (λ chosen. chosen.number ≡ number) }
        ensures there { IfSome result (λ chosen. slice_get (leaves self.now.tree) number ≡ Some chosen.component) }
        ensures none { IfNone result (length (leaves self.now.tree) ≤ number) }
    {
        match self.seats().get(number as usize) {
            Some(seat) => Some(Chosen {
                program: self.program(),
                number,
                seat,
            }),
            None => None,
        }
    }
}

/// The part of a component that has the whole room for itself: its alphabet, and its normal table. Or why it has none.
pub fn make_part(alloc: Global, chosen: &Chosen<'_>) -> Result<Part, Stop<Refusal>>
    ensures part { IfOk result (λ part. ArePartsBy chosen.now.program (chosen.now.component ∷ []) (part ∷ [])) }
    ensures told { IfErr result (Tells (HasNoPart chosen.now.program chosen.now.number chosen.now.component)) }
{
    let seats = slice::from_ref(chosen.seat);
    let tables = tables_from(alloc, chosen.program, chosen.number, seats)?;
    match part_of(
        alloc,
        chosen.program,
        chosen.number,
        chosen.seat,
        &tables[0],
    ) {
        Ok(part) => Ok(part),
        Err(stop) => Err(stop),
    }
}
