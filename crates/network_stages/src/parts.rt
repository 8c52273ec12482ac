//! A network with the parts of its components: alphabets with normal tables.

ghost use Rattle.std.specs.Prelude.{◌≡◌, ◌≤◌, ◌<◌, ◌++◌, ◌∷◌, [], IfErr, IfOk, OnOk, length};
ghost use Rattle.dl_limits.specs.declared.TheConstants.{MOST_COMPONENTS};
ghost use Rattle.csp_tables.specs.Prelude.{HasForm, HaveForm, ArePartsOf, IsPartOf};
ghost use Rattle.network_stages.specs.Prelude.{HasManySets, HaveFewSets, HasNoParts, HasParts, HaveNoParts, AreTablesOf, HasTable};
ghost use Rattle.process_steps.specs.Prelude.{ProcessStep};
ghost use Rattle.process_steps.specs.declared.component_fault.ComponentFault.TheVariants.{SubsetLimit};
ghost use Rattle.csp_base.specs.Stops.{Tells};
ghost use Rattle.report.specs.declared.answer.Refusal.TheVariants as refusal;

use crate::component_tables::ComponentTable;
use crate::spelled::Spelled;
use crate::tabled::Tabled;
use csp_base::{Made, NoMemory, Stop};
use csp_program::Program;
use csp_tables::Part;
use network_layout::Seat;
use normal_form::normalise;
use process_steps::ComponentFault;
use report::Refusal;
use std::alloc::Global;
use std::marker::Model;

/// A network with the parts of its components. Contracts see it as these two.
pub struct Parted<'a> {
    network: &'a Spelled,
    parts: Vec<Part>,
}

impl<'a> Drop for Parted<'a> {
    fn drop(self) {
        let Parted { network, parts } = self;
    }
}

impl<'a> Model for Parted<'a> {
    ghost use Rattle.std.specs.Coded.{codes};
    ghost use Rattle.csp_program.specs.contracts.expressions.Expr as expression;
    ghost use Rattle.csp_program.specs.contracts.networks.Net as net;
    ghost use Rattle.csp_program.specs.contracts.processes.Proc as process;
    ghost use Rattle.csp_tables.specs.Form.{HaveForm};
    ghost use Rattle.network_stages.specs.Stages.{HasParts};
    ghost use Rattle.network_stages.specs.TreeCode.{tree_code};
    ghost use Rattle.network_stages.specs.Views.{PartedNetwork};

    ghost Value = { PartedNetwork };

    ghost coded = { Prim.hlevel
        (codes, tree_code, expression.the_row.coded, net.the_row.coded, process.the_row.coded) };

    ghost view = { λ s. record { network = s.network.now; parts = s.parts.items } };

    ghost invariant = { λ s. HasParts s.network.now s.parts.items × HaveForm s.parts.items };
}

impl<'a> Parted<'a> {
    /// The network.
    pub fn network(&self) -> &'a Spelled
        ensures { result.now ≡ self.now.network }
    {
        self.network
    }

    /// The parts of its components.
    pub fn parts(&self) -> &[Part]
        ensures parts { result.now ≡ self.now.parts }
        ensures are { HasParts self.now.network self.now.parts }
        ensures form { HaveForm self.now.parts }
    {
        let _ = self.network;
        self.parts.as_slice()
    }

    // The parts alone.
    pub(crate) fn into_parts(self) -> Vec<Part>
        ensures parts { result.items ≡ self.entry.parts }
        ensures are { HasParts self.entry.network self.entry.parts }
        ensures form { HaveForm self.entry.parts }
    {
        let Parted {
            network: _network,
            parts,
        } = self;
        parts
    }
}

// The part of the component with this number: its alphabet, and the normal table of its table. Or that its traces lead to more than 2,048 sets of terms.
pub(crate) fn part_of(
    alloc: Global,
    program: &Program,
    number: u32,
    seat: &Seat,
    table: &ComponentTable,
) -> Result<Part, Stop<Refusal>>
    requires { HasTable program.now seat.now table.now }
    ensures part { IfOk result (IsPartOf (ProcessStep program.now) seat.now) }
    ensures form { IfOk result HasForm }
    ensures few { OnOk result (HasManySets program.now seat.now → ⊥) }
    ensures told { IfErr result (Tells (λ r. HasManySets program.now seat.now
        × (r ≡ refusal.Component number SubsetLimit))) }
{
    let alphabet = seat.alphabet().try_clone(alloc)?;
    match normalise(alloc, &table.local.table, &table.heights) {
        Ok(normal) => Ok(Part::new(alphabet, normal)),
        Err(Stop::NoMemory) => Err(Stop::NoMemory),
        Err(Stop::Told(_limit)) => Err(Stop::Told(Refusal::Component {
            component: number,
            fault: ComponentFault::SubsetLimit,
        })),
    }
}

// Adds a part.
fn add(made: &mut Vec<Part>, part: Part) -> Made<()>
    ensures { OnOk result (made.new.items ≡ made.old.items ++ part ∷ []) }
{
    made.push(part)?;
    Ok(())
}

// The part of each component, or that traces of one lead to more than 2,048 sets of terms.
fn all_parts(
    alloc: Global,
    program: &Program,
    seats: &[Seat],
    tables: &[ComponentTable],
) -> Result<Vec<Part>, Stop<Refusal>>
    requires tables { AreTablesOf program.now seats.now tables.now }
    requires most { length seats.now ≤ MOST_COMPONENTS }
    ensures parts { IfOk result (λ made. ArePartsOf (ProcessStep program.now) seats.now made.items) }
    ensures form { IfOk result (λ made. HaveForm made.items) }
    ensures few { OnOk result (HaveFewSets program.now seats.now) }
    ensures told { IfErr result (Tells (HaveNoParts program.now 0 seats.now)) }
{
    let mut made = Vec::new(alloc);
    for place in 0..seats.len() {
        match part_of(alloc, program, place as u32, &seats[place], &tables[place]) {
            Ok(part) => add(&mut made, part)?,
            Err(stop) => return Err(stop),
        }
    }
    Ok(made)
}

/// The part of each component of a network: its alphabet, and the normal table of its table. Or why one has none.
pub fn make_parts<'a>(alloc: Global, tabled: &Tabled<'a>) -> Result<Parted<'a>, Stop<Refusal>>
    ensures network { IfOk result (λ made. made.network ≡ tabled.now.network) }
    ensures parts { IfOk result (λ made. HasParts tabled.now.network made.parts) }
    ensures told { IfErr result (Tells (HasNoParts tabled.now.network)) }
{
    let network = tabled.network();
    let parts = all_parts(alloc, network.program(), network.seats(), tabled.tables())?;
    Ok(Parted { network, parts })
}
