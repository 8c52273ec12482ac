//! The sets that a program tells of its components.

ghost use Rattle.std.specs.Prelude.{◌≡◌, [], false, IfErr, IfOk, Ok, Some, ◌≤◌, length};
ghost use Rattle.std.specs.Option.{option_copied};
ghost use Rattle.dl_limits.specs.declared.TheConstants.{MOST_COMPONENTS};
ghost use Rattle.csp_base.specs.Stops.{Tells};
ghost use Rattle.csp_program.specs.Prelude.{Outcome};
ghost use Rattle.csp_program.specs.declared.processes.Proc.{Proc};
ghost use Rattle.csp_program.specs.declared.programs.Content.{Content};
ghost use Rattle.csp_tables.specs.Network.{Component};
ghost use Rattle.process_steps.specs.Needed.{all_outcomes};
ghost use Rattle.network_trees.specs.Annotations.{component_roles, component_uses, resource_note, roles_note, told_roles, told_set, told_uses};
ghost use Rattle.network_layout.specs.Told.{IsUntold, noted_fault};
ghost use Rattle.value_operators.specs.Gives.{Gives};

use crate::seat::{Layout, Seat};
use crate::values::events_of;
use containers::{Boxed, Items};
use csp_base::{EventSet, Made, NoMemory, Stop};
use csp_program::copies::copy_exprs;
use csp_program::{Expr, Proc, Program, ResourceNote, RolesNote, ValueKind};
use csp_tables::{RoleSets, UseSets};
use csp_values::eval_set;
use std::alloc::Global;
use value_operators::{EvalFault, EvalResult};

/// A set that is told of a component has no value, or holds something that is no event.
#[derive(Clone, Copy, Drop)]
pub struct NotedFault {
    /// The first such component.
    pub part: u32,
    /// The kind of fault.
    pub kind: ValueKind,
}

// Sets that are told of a component.
trait Noted: Sized + Drop {
    ghost told: { Content → Component Proc → Outcome Self };

    // What the program tells of this one.
    fn of_seat(alloc: Global, program: &Program, seat: &Seat) -> EvalResult<Self>
        ensures { Gives result (told program.now seat.now) };
}

// The use of a definition with arguments.
fn use_of(alloc: Global, def: u32, args: &[Expr]) -> Made<Boxed<Expr>>
    ensures { IfOk result (λ made. made ≡ Expr.Call def args.now) }
{
    let args = copy_exprs(alloc, args)?;
    Ok(Boxed::new(alloc, Expr::Call(def, args))?)
}

// The set that a definition is, with these arguments.
fn call_events(alloc: Global, program: &Program, args: &[Expr], def: u32) -> EvalResult<EventSet>
    ensures { Gives result (told_set program.now args.now def) }
{
    let call = use_of(alloc, def, args)?;
    let atoms = eval_set(alloc, program, call.get())?;
    events_of(alloc, &atoms)
}

// The sets that an annotation tells.
fn eval_roles(
    alloc: Global,
    program: &Program,
    args: &[Expr],
    note: &RolesNote,
) -> EvalResult<RoleSets>
    ensures { Gives result (told_roles program.now args.now (Some note.now)) }
{
    let creq = call_events(alloc, program, args, note.creq)?;
    let cack = call_events(alloc, program, args, note.cack)?;
    let sreq = call_events(alloc, program, args, note.sreq)?;
    let sack = call_events(alloc, program, args, note.sack)?;
    Ok(RoleSets::new(creq, cack, sreq, sack))
}

// The sets that an annotation of a resource tells.
fn eval_uses(
    alloc: Global,
    program: &Program,
    args: &[Expr],
    note: &ResourceNote,
) -> EvalResult<UseSets>
    ensures { Gives result (told_uses program.now args.now (Some note.now)) }
{
    let acquire = call_events(alloc, program, args, note.acquire)?;
    let release = call_events(alloc, program, args, note.release)?;
    Ok(UseSets::new(true, acquire, release))
}

// The sets of a component of which nothing is told.
fn no_roles(alloc: Global) -> RoleSets
    ensures { result ≡ record { creq = []; cack = []; sreq = []; sack = [] } }
{
    RoleSets::new(
        EventSet::new(alloc),
        EventSet::new(alloc),
        EventSet::new(alloc),
        EventSet::new(alloc),
    )
}

fn no_uses(alloc: Global) -> UseSets
    ensures { result ≡ record { resource = false; acquire = []; release = [] } }
{
    UseSets::new(false, EventSet::new(alloc), EventSet::new(alloc))
}

// The annotation of the process with this number.
fn find_roles(notes: &[RolesNote], process: u32) -> Option<&RolesNote>
    ensures { option_copied result ≡ roles_note notes.now process }
{
    notes.iter().find(|note| note.process == process)
}

fn find_resource(notes: &[ResourceNote], process: u32) -> Option<&ResourceNote>
    ensures { option_copied result ≡ resource_note notes.now process }
{
    notes.iter().find(|note| note.process == process)
}

impl Noted for RoleSets {
    ghost told = { component_roles };

    fn of_seat(alloc: Global, program: &Program, seat: &Seat) -> EvalResult<RoleSets> {
        match seat.term() {
            Proc::Call(def, args) => match find_roles(program.content().roles.as_slice(), *def) {
                Some(note) => eval_roles(alloc, program, args.as_slice(), note),
                None => Ok(no_roles(alloc)),
            },
            _ => Ok(no_roles(alloc)),
        }
    }
}

impl Noted for UseSets {
    ghost told = { component_uses };

    fn of_seat(alloc: Global, program: &Program, seat: &Seat) -> EvalResult<UseSets> {
        match seat.term() {
            Proc::Call(def, args) => match find_resource(
                program.content().resources.as_slice(),
                *def,
            ) {
                Some(note) => eval_uses(alloc, program, args.as_slice(), note),
                None => Ok(no_uses(alloc)),
            },
            _ => Ok(no_uses(alloc)),
        }
    }
}

// The fault of a component.
fn fault_at(fault: EvalFault, part: u32) -> Stop<NotedFault>
    ensures { result ≡ noted_fault part fault }
{
    match fault {
        Stop::NoMemory => Stop::NoMemory,
        Stop::Told(kind) => Stop::Told(NotedFault { part, kind }),
    }
}

// What is told of each of the components.
fn collect<T: Noted>(
    alloc: Global,
    program: &Program,
    seats: &[Seat],
) -> Result<Items<T>, Stop<NotedFault>>
    requires { length seats.now ≤ MOST_COMPONENTS }
    ensures told { IfOk result (λ told. all_outcomes (T.told program.now) seats.now ≡ Ok told) }
    ensures fault { IfErr result (Tells (IsUntold (T.told program.now) seats.now)) }
{
    let mut made = Items::new(alloc);
    for (part, seat) in seats.iter().enumerate() {
        match T::of_seat(alloc, program, seat) {
            Ok(sets) => made.push(sets)?,
            Err(fault) => return Err(fault_at(fault, part as u32)),
        }
    }
    Ok(made)
}

/// The roles that a program tells of the components. A fault is that of the first component whose sets have no value,
/// the first of them in the order of the annotation.
pub fn roles_of(
    alloc: Global,
    program: &Program,
    layout: &Layout,
) -> Result<Items<RoleSets>, Stop<NotedFault>>
    ensures told { IfOk result (λ told. all_outcomes (component_roles program.now) layout.now ≡ Ok told) }
    ensures fault { IfErr result (Tells (IsUntold (component_roles program.now) layout.now)) }
{
    collect(alloc, program, layout.seats())
}

/// How the components are used as resources, by what a program tells of them. Faults are those of `roles_of`.
pub fn uses_of(
    alloc: Global,
    program: &Program,
    layout: &Layout,
) -> Result<Items<UseSets>, Stop<NotedFault>>
    ensures told { IfOk result (λ told. all_outcomes (component_uses program.now) layout.now ≡ Ok told) }
    ensures fault { IfErr result (Tells (IsUntold (component_uses program.now) layout.now)) }
{
    collect(alloc, program, layout.seats())
}
