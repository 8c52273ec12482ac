//! The tables of the components, one after another.

ghost use Rattle.std.specs.Prelude.{◌≡◌, ◌≤◌, ◌<◌, ◌+◌, ◌++◌, ◌∷◌, [], IfErr, IfOk, OnOk, length};
ghost use Rattle.dl_limits.specs.declared.TheConstants.{MOST_COMPONENTS};
ghost use Rattle.local_tables.specs.Component.{AreTermsOf};
ghost use Rattle.net_sound.specs.Heights.{AreSilentHeights};
ghost use Rattle.csp_base.specs.Stops.{Tells};
ghost use Rattle.network_stages.specs.Prelude.{HasFault, TellsRound, at_component, HaveNoTables, AreTablesOf, IsTableWithin, room_after, whole_room};

use csp_base::{Made, NoMemory, Stop};
use csp_program::Program;
use digraph::Heights;
use dl_limits::{MOST_NODES, MOST_STEPS};
use local_tables::{LocalTable, Room, Task, Terms, explore};
use network_layout::Seat;
use process_steps::ComponentFault;
use report::Refusal;
use std::alloc::Global;
use tau_order::heights;

/// The table of a component with its silent heights.
pub struct ComponentTable {
    /// The table, and the room that it takes.
    pub local: LocalTable,
    /// For each of its terms the greatest number of silent steps that follow one another from it.
    pub heights: Heights,
}

impl Drop for ComponentTable {
    fn drop(self) {
        let ComponentTable { local, heights } = self;
    }
}

// The room of all components together.
fn whole() -> Room
    ensures { result ≡ whole_room }
{
    Room::new(MOST_NODES, MOST_STEPS)
}

// The room that is left after some is used.
fn after(room: Room, used: &Room) -> Room
    requires nodes { used.now.nodes ≤ room.nodes }
    requires steps { used.now.steps ≤ room.steps }
    ensures { result ≡ room_after room used.now }
{
    Room::new(room.nodes() - used.nodes(), room.steps() - used.steps())
}

// A table with its silent heights.
fn with_heights(alloc: Global, local: LocalTable) -> Result<ComponentTable, Stop<ComponentFault>>
    ensures local { IfOk result (λ made. made.local ≡ local) }
    ensures heights { IfOk result (λ made. AreSilentHeights local.table made.heights) }
    ensures fault { IfErr result (Tells (TellsRound local)) }
{
    match heights(alloc, &local.table) {
        Ok(heights) => Ok(ComponentTable { local, heights }),
        Err(Stop::NoMemory) => Err(Stop::NoMemory),
        Err(Stop::Told(_circle)) => Err(Stop::Told(ComponentFault::Diverges)),
    }
}

// The table of a component, within a room.
fn table_within(
    alloc: Global,
    program: &Program,
    terms: &mut Terms,
    seat: &Seat,
    room: Room,
) -> Result<ComponentTable, Stop<ComponentFault>>
    requires kept { AreTermsOf program.now terms.old }
    ensures table { IfOk result (IsTableWithin program.now room seat.now) }
    ensures fault { IfErr result (Tells (λ fault. HasFault program.now fault room seat.now)) }
    ensures terms { OnOk result (AreTermsOf program.now terms.new) }
{
    let task = Task {
        program,
        start: seat.term(),
        alphabet: seat.alphabet(),
        room,
    };
    let local = explore(alloc, &task, terms)?;
    with_heights(alloc, local)
}

// How it is told that the component with this number has no table.
fn table_fault(component: u32, fault: Stop<ComponentFault>) -> Stop<Refusal>
    ensures { result ≡ at_component component fault }
{
    match fault {
        Stop::NoMemory => Stop::NoMemory,
        Stop::Told(fault) => Stop::Told(Refusal::Component { component, fault }),
    }
}

// Adds a table.
fn add(made: &mut Vec<ComponentTable>, table: ComponentTable) -> Made<()>
    ensures { OnOk result (made.new.items ≡ made.old.items ++ table ∷ []) }
{
    made.push(table)?;
    Ok(())
}

// The tables of components of a program, of which the first has the number `first` in its network. The room of a component is 8,388,608 for the sizes of
// its terms and 1,048,576 for its steps, less what those before it take. The first component that has no table, or goes round in silent steps, is told.
pub(crate) fn tables_from(
    alloc: Global,
    program: &Program,
    first: u32,
    seats: &[Seat],
) -> Result<Vec<ComponentTable>, Stop<Refusal>>
    requires most { first + length seats.now ≤ MOST_COMPONENTS }
    ensures tables { IfOk result (λ tables. AreTablesOf program.now seats.now tables.items) }
    ensures told { IfErr result (Tells (HaveNoTables program.now first seats.now)) }
{
    let mut made = Vec::new(alloc);
    let mut room = whole();
    let mut terms = Terms::new(alloc, program.key());
    for (part, seat) in seats.iter().enumerate() {
        match table_within(alloc, program, &mut terms, seat, room) {
            Ok(table) => {
                room = after(room, &table.local.used);
                add(&mut made, table)?;
            }
            Err(fault) => return Err(table_fault(first + part as u32, fault)),
        }
    }
    Ok(made)
}
