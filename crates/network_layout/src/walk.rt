//! The walk of a network, depth first from the left: it seats each component that it meets, and gives back their
//! alphabets together.

ghost use Rattle.std.specs.Prelude.{◌≡◌, IfOk};
ghost use Rattle.csp_program.specs.declared.networks.Net.TheOpen.{Net-F};
ghost use Rattle.network_trees.specs.Joint.{lesser, odd_event};
ghost use Rattle.network_layout.specs.Lays.{Lays, body_walked, component, leaf_walked, node, one_operand, operand_walked, operands_each, pair_walked, place_of, seated, set_walked, walked, with_name};

use crate::seat::{Layout, Seat};
use crate::values::{Scope, arguments, events, put, set, truth, with_name};
use csp_atoms::{Atom, Value};
use csp_base::{Event, EventSet, Made, Stop};
use csp_program::{Body, Def, Expr, Net, Proc, ValueKind};
use dl_limits::MOST_COMPONENTS;
use network_trees::LayoutFault;
use std::alloc::Global;

// The alphabets of the components that were seated, together; or the fault that was met.
type Laid = Result<EventSet, Stop<LayoutFault>>;

// An operand, with the expression that its alphabet is the value of.
#[derive(Drop)]
struct Operand<'a> {
    net: &'a Net,
    alphabet: &'a Expr,
}

const NO_NETWORK: LayoutFault = LayoutFault::Value {
    kind: ValueKind::Kind,
};

// A component.
fn seat_of(scope: &Scope<'_>, process: &Proc, alphabet: &EventSet) -> Made<Seat>
    ensures { IfOk result (λ seat. seat ≡ component (place_of scope.now) alphabet.now process.now) }
{
    let kept = alphabet.try_clone(scope.alloc)?;
    let term = put(scope, process)?;
    Ok(Seat::new(term, kept))
}

// Seats a component.
fn sit(scope: &Scope<'_>, process: &Proc, alphabet: &EventSet, seats: &mut Layout) -> Laid
    ensures { Lays result (seated (place_of scope.now) alphabet.now process.now) seats.old seats.new }
{
    if seats.len() >= MOST_COMPONENTS {
        return Err(Stop::Told(LayoutFault::ComponentLimit));
    }
    seats.push_made(seat_of(scope, process, alphabet))?;
    Ok(alphabet.union(scope.alloc, &EventSet::new(scope.alloc))?)
}

// A network in which no node may be entered.
#[tactic(auto, using(csp_program::specs::declared::networks::Net::the_lemmas), unfolding(network_trees::specs::NetworkOf::tree_within))]
fn walk_leaf(scope: &Scope<'_>, net: &Net, alphabet: &EventSet, seats: &mut Layout) -> Laid
    ensures { Lays result (leaf_walked (place_of scope.now) alphabet.now net.now) seats.old seats.new }
{
    match net {
        Net::Leaf(process) => sit(scope, process, alphabet, seats),
        Net::Call(_, _) => Err(Stop::Told(LayoutFault::NetworkDepth)),
        Net::If(_, _, _) => Err(Stop::Told(LayoutFault::NetworkDepth)),
        Net::Pair(_, _, _, _) => Err(Stop::Told(LayoutFault::NetworkDepth)),
        Net::Each(_, _, _, _) => Err(Stop::Told(LayoutFault::NetworkDepth)),
    }
}

// A network.
#[cycle(walk)]
pub(crate) fn walk(scope: &Scope<'_>, net: &Net, alphabet: &EventSet, seats: &mut Layout) -> Laid
    ensures { Lays result (walked (place_of scope.now) alphabet.now net.now) seats.old seats.new }
{
    if scope.levels == 0 {
        return walk_leaf(scope, net, alphabet, seats);
    }
    let below = Scope {
        levels: scope.levels - 1,
        ..*scope
    };
    match net {
        Net::Leaf(process) => sit(&below, process, alphabet, seats),
        Net::Call(def, args) => walk_call(&below, *def, args.as_slice(), alphabet, seats),
        Net::If(c, n, m) => walk_if(&below, c, n.get(), m.get(), alphabet, seats),
        Net::Pair(n, a, b, m) => {
            let left = Operand {
                net: n.get(),
                alphabet: a,
            };
            let right = Operand {
                net: m.get(),
                alphabet: b,
            };
            walk_pair(&below, &left, &right, seats)
        }
        Net::Each(x, s, a, n) => {
            let operand = Operand {
                net: n.get(),
                alphabet: a,
            };
            walk_set(&below, *x, s, &operand, seats)
        }
    }
}

// A call, which stands for the body of its definition.
#[cycle(walk)]
#[tactic(auto, unfolding(crate::specs::Lays::node, crate::specs::Lays::body_walked))]
fn walk_call(
    scope: &Scope<'_>,
    def: u32,
    args: &[Expr],
    alphabet: &EventSet,
    seats: &mut Layout,
) -> Laid
    ensures { Lays result (node (place_of scope.now) alphabet.now (Net-F.Call def args.now)) seats.old seats.new }
{
    let values = arguments(scope, args)?;
    match scope.program.content().defs.get(def as usize) {
        Some(def) => walk_body(scope, def, values.as_slice(), alphabet, seats),
        None => Err(Stop::Told(NO_NETWORK)),
    }
}

// The body of a definition, under its parameters with these values.
#[cycle(walk)]
#[tactic(auto, unfolding(crate::specs::Lays::body_walked))]
fn walk_body(
    scope: &Scope<'_>,
    def: &Def,
    args: &[Value],
    alphabet: &EventSet,
    seats: &mut Layout,
) -> Laid
    ensures { Lays result (body_walked (place_of scope.now) alphabet.now def.now args.now) seats.old seats.new }
{
    let Body::Network(net) = &def.body else {
        return Err(Stop::Told(NO_NETWORK));
    };
    let inner = Scope {
        params: def.params.as_slice(),
        args,
        bound: &[],
        ..*scope
    };
    walk(&inner, net, alphabet, seats)
}

// A choice, which stands for one of its parts.
#[cycle(walk)]
#[tactic(auto, unfolding(crate::specs::Lays::node))]
fn walk_if(
    scope: &Scope<'_>,
    condition: &Expr,
    left: &Net,
    right: &Net,
    alphabet: &EventSet,
    seats: &mut Layout,
) -> Laid
    ensures { Lays result (node (place_of scope.now) alphabet.now
        (Net-F.If condition.now left.now right.now)) seats.old seats.new }
{
    if truth(scope, condition)? {
        return walk(scope, left, alphabet, seats);
    }
    walk(scope, right, alphabet, seats)
}

// The lesser of two events.
fn lesser_event(left: Option<Event>, right: Option<Event>) -> Option<Event>
    ensures { result ≡ lesser left right }
{
    match (left, right) {
        (None, right) => right,
        (Some(e), None) => Some(e),
        (Some(e), Some(d)) => Some(Event(e.0.min(d.0))),
    }
}

// The least event that is in exactly one of the sets.
fn odd_event(alloc: Global, left: &EventSet, right: &EventSet) -> Made<Option<Event>>
    ensures { IfOk result (λ found. found ≡ odd_event left.now right.now) }
{
    let missing = left.diff(alloc, right)?;
    let extra = right.diff(alloc, left)?;
    Ok(lesser_event(missing.first_from(Event(0)), extra.first_from(Event(0))))
}

// An operand, which has to agree with its alphabet.
#[cycle(walk)]
#[tactic(auto, unfolding(crate::specs::Lays::operand_walked))]
fn walk_operand(scope: &Scope<'_>, net: &Net, alphabet: &EventSet, seats: &mut Layout) -> Laid
    ensures { Lays result (operand_walked (place_of scope.now) alphabet.now net.now) seats.old seats.new }
{
    let first = seats.len();
    let joint = walk(scope, net, alphabet, seats)?;
    match odd_event(scope.alloc, alphabet, &joint)? {
        None => Ok(joint),
        Some(event) => Err(Stop::Told(LayoutFault::BadNesting {
            first: first as u32,
            count: (seats.len() - first) as u32,
            event,
        })),
    }
}

// Two operands.
#[cycle(walk)]
#[tactic(auto, unfolding(crate::specs::Lays::node, crate::specs::Lays::operand_walked))]
fn walk_pair(scope: &Scope<'_>, left: &Operand<'_>, right: &Operand<'_>, seats: &mut Layout) -> Laid
    ensures { Lays result (pair_walked (place_of scope.now) left.now right.now) seats.old seats.new }
{
    let left_alphabet = events(scope, left.alphabet)?;
    let right_alphabet = events(scope, right.alphabet)?;
    let first = walk_operand(scope, left.net, &left_alphabet, seats)?;
    let second = walk_operand(scope, right.net, &right_alphabet, seats)?;
    Ok(first.union(scope.alloc, &second)?)
}

// An operand for each value of a set.
#[cycle(walk)]
#[tactic(auto, unfolding(crate::specs::Lays::node, crate::specs::Lays::operands_each))]
fn walk_set(
    scope: &Scope<'_>,
    name: u32,
    values: &Expr,
    operand: &Operand<'_>,
    seats: &mut Layout,
) -> Laid
    ensures { Lays result (set_walked (place_of scope.now) name values.now operand.now) seats.old seats.new }
{
    let atoms = set(scope, values)?;
    walk_each(scope, name, atoms.as_slice(), operand, seats)
}

// An operand for each of these values.
#[cycle(walk)]
fn walk_each(
    scope: &Scope<'_>,
    name: u32,
    atoms: &[Atom],
    operand: &Operand<'_>,
    seats: &mut Layout,
) -> Laid
    ensures { Lays result (operands_each (place_of scope.now) name operand.now atoms.now) seats.old seats.new }
{
    let mut joint = EventSet::new(scope.alloc);
    for atom in atoms {
        let next = walk_at(scope, name, *atom, operand, seats)?;
        joint = joint.union(scope.alloc, &next)?;
    }
    Ok(joint)
}

// The operand for one value of the name.
#[cycle(walk)]
fn walk_at(
    scope: &Scope<'_>,
    name: u32,
    atom: Atom,
    operand: &Operand<'_>,
    seats: &mut Layout,
) -> Laid
    ensures { Lays result (one_operand (with_name (place_of scope.now) name atom) operand.now) seats.old seats.new }
{
    let bound = with_name(scope, name, atom)?;
    let inner = Scope {
        bound: bound.as_slice(),
        ..*scope
    };
    walk_one(&inner, operand, seats)
}

// An operand with the alphabet that it has under the names of the scope.
#[cycle(walk)]
#[tactic(auto, unfolding(crate::specs::Lays::one_operand))]
fn walk_one(scope: &Scope<'_>, operand: &Operand<'_>, seats: &mut Layout) -> Laid
    ensures { Lays result (one_operand (place_of scope.now) operand.now) seats.old seats.new }
{
    let alphabet = events(scope, operand.alphabet)?;
    walk_operand(scope, operand.net, &alphabet, seats)
}
