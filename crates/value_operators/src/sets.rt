//! Sets that grow while an expression is evaluated.

ghost use Rattle.std.specs.Prelude.{◌≡◌, ℕ, ◌+◌, ◌<◌, ◌≤◌, ◌^◌, Ok, Some, [], map, pos, ◌+ℤ◌, ◌-ℤ◌, ◌≤ℤ◌, ◌<ℤ◌, IfOk, IsTrue, MatchOption};
ghost use Rattle.dl_limits.specs.declared.TheConstants.{MOST_ELEMENTS};
ghost use Rattle.csp_atoms.specs.Sets.{place_of};
ghost use Rattle.csp_atoms.specs.declared.atom.Atom.TheVariants as atom;
ghost use Rattle.csp_program.specs.Prelude.{added, all_added, limited, numbers_from, and_then, as_atom, set_binary};
ghost use Rattle.csp_program.specs.Value as meant;
ghost use Rattle.value_laws.specs.Numbers.{events_from};
ghost use Rattle.value_operators.specs.Gives.{Gives};

use crate::EvalResult;
use crate::growing::GrowingSet;
use crate::operators::to_atom;
use csp_atoms::{Atom, AtomSet, Value};
use csp_base::{Event, Made, NoMemory, SetOp, Stop};
use csp_program::ValueKind;
use dl_limits::MOST_ELEMENTS;
use std::alloc::Global;

// From so many events on, a set is put into one part before they are looked up in it.
const MANY_EVENTS: u32 = 8;

// The set, unless it has too many elements.
fn within_limit(atoms: AtomSet) -> EvalResult<AtomSet>
    ensures { Gives result (limited atoms) }
{
    if atoms.len() > MOST_ELEMENTS {
        return Err(Stop::Told(ValueKind::SetLimit));
    }
    Ok(atoms)
}

// The set with one more atom.
fn with_one_more(mut atoms: AtomSet, one: Atom) -> EvalResult<AtomSet>
    ensures { Gives result (added atoms one) }
{
    match atoms.insert(one) {
        Ok(()) => within_limit(atoms),
        Err(Stop::Told(_)) => Err(Stop::Told(ValueKind::Kind)),
        Err(Stop::NoMemory) => Err(Stop::NoMemory),
    }
}

/// The set with the atom that a value is. A set, or an atom of another kind than the set's, has the fault `Kind`; more than 16,384 elements have the
/// fault `SetLimit`.
pub fn with_item(alloc: Global, atoms: GrowingSet, item: &Value) -> EvalResult<GrowingSet>
    ensures { Gives result (and_then (as_atom item.now) (λ a. added atoms a)) }
{
    let one = to_atom(item)?;
    atoms.with(alloc, one)
}

/// The set of constants. More than 16,384 different ones have the fault `SetLimit`.
pub fn constants(alloc: Global, numbers: &[u32]) -> EvalResult<AtomSet>
    ensures { Gives result (all_added [] (map (λ k. atom.Const k) numbers.now)) }
{
    let mut atoms = AtomSet::new(alloc);
    for number in numbers {
        atoms = with_one_more(atoms, Atom::Const(*number))?;
    }
    Ok(atoms)
}

// The event with the number `first + place`.
fn event(first: u32, place: u32) -> Atom
    requires { first + place < 2 ^ 32 }
    ensures { result ≡ atom.Event (first + place) }
{
    Atom::Event(Event(first + place))
}

// Whether the second atom stands so many places after the first.
fn stands_after(atoms: &AtomSet, first: Atom, last: Atom, distance: u64) -> bool
    ensures { IsTrue result → (p : ℕ) × (place_of atoms.now first ≡ Some p)
        × (place_of atoms.now last ≡ Some (p + distance)) }
{
    let Some(low) = atoms.place_of(first) else {
        return false;
    };
    let Some(high) = atoms.place_of(last) else {
        return false;
    };
    low <= high && (high - low) as u64 == distance
}

// Whether the set, which is within the limit, holds the events from `first` on, so many of them: the last then stands as far after the first as their
// numbers are apart.
fn holds_events(atoms: &AtomSet, first: u32, count: u32) -> bool
    requires { first + count < 2 ^ 32 }
    ensures { IsTrue result → all_added atoms.now (events_from first count) ≡ Ok atoms.now }
{
    if count < 2 || atoms.len() > MOST_ELEMENTS {
        return false;
    }
    // Its contract says that the atoms rise and are of one kind.
    let _ = atoms.as_slice();
    let lowest = event(first, 0);
    let highest = event(first, count - 1);
    stands_after(atoms, lowest, highest, u64::from(count - 1))
}

// Whether a set that is in one part holds the events from `first` on, so many of them.
fn holds(atoms: &GrowingSet, first: u32, count: u32) -> bool
    requires { first + count < 2 ^ 32 }
    ensures { IsTrue result → all_added atoms.now (events_from first count) ≡ Ok atoms.now }
{
    match atoms.in_one_part() {
        Some(atoms) => holds_events(atoms, first, count),
        None => false,
    }
}

// The set, in one part where many events come.
fn ready(alloc: Global, atoms: GrowingSet, count: u32) -> Made<GrowingSet>
    ensures { IfOk result (λ same. same ≡ atoms) }
{
    if count < MANY_EVENTS {
        return Ok(atoms);
    }
    atoms.settle(alloc)
}

// The set with the events from `first` on, so many of them.
fn add_events(alloc: Global, atoms: GrowingSet, first: u32, count: u32) -> EvalResult<GrowingSet>
    requires { first + count < 2 ^ 32 }
    ensures { Gives result (all_added atoms (events_from first count)) }
{
    if holds(&atoms, first, count) {
        return Ok(atoms);
    }
    let mut atoms = atoms;
    for place in 0..count {
        let one = event(first, place);
        atoms = atoms.with(alloc, one)?;
    }
    Ok(atoms)
}

/// The set with the events from `first` on, so many of them. Atoms of another kind in it have the fault `Kind`, and more than 16,384 elements the
/// fault `SetLimit`.
pub fn with_events(
    alloc: Global,
    atoms: GrowingSet,
    first: u32,
    count: u32,
) -> EvalResult<GrowingSet>
    requires { first + count < 2 ^ 32 }
    ensures { Gives result (all_added atoms (events_from first count)) }
{
    let atoms = ready(alloc, atoms, count)?;
    add_events(alloc, atoms, first, count)
}

// The atoms of either set.
fn unite(alloc: Global, left: &AtomSet, right: &AtomSet) -> EvalResult<AtomSet>
    ensures { Gives result (set_binary SetOp.Union left.now right.now) }
{
    match left.union(alloc, right) {
        Ok(atoms) => within_limit(atoms),
        Err(Stop::Told(_)) => Err(Stop::Told(ValueKind::Kind)),
        Err(Stop::NoMemory) => Err(Stop::NoMemory),
    }
}

/// What an operator gives of two sets. A union of two kinds of atoms has the fault `Kind`, and more than 16,384 elements have the fault `SetLimit`.
pub fn combine(alloc: Global, op: SetOp, left: &AtomSet, right: &AtomSet) -> EvalResult<AtomSet>
    ensures { Gives result (set_binary op left.now right.now) }
{
    match op {
        SetOp::Union => unite(alloc, left, right),
        SetOp::Inter => within_limit(left.inter(alloc, right)?),
        SetOp::Diff => within_limit(left.diff(alloc, right)?),
    }
}

// The number `first + place`.
fn number_at(first: i64, place: u16) -> Atom
    requires fit { (first +ℤ pos place) <ℤ pos (2 ^ 63) }
    ensures { result ≡ atom.Num (first +ℤ pos place) }
{
    Atom::Num(first + i64::from(place))
}

// So many numbers from `first` on, few enough for a set.
fn numbers_on(alloc: Global, first: i64, count: u16) -> EvalResult<AtomSet>
    requires few { count ≤ MOST_ELEMENTS }
    requires fit { (first +ℤ pos count) ≤ℤ pos (2 ^ 63) }
    ensures { Gives result (Ok (numbers_from first count)) }
{
    let mut atoms = AtomSet::new(alloc);
    for place in 0..count {
        let one = number_at(first, place);
        atoms = with_one_more(atoms, one)?;
    }
    Ok(atoms)
}

// How far `last` is from `first`, if that is not too far for a set.
fn distance(first: i64, last: i64) -> Option<u16>
    requires { first ≤ℤ last }
    ensures { MatchOption result (pos MOST_ELEMENTS ≤ℤ (last -ℤ first)) (λ d. ((first +ℤ pos d) ≡ last)
        × (d < MOST_ELEMENTS)) }
{
    match last.checked_sub(first) {
        Some(distance) => {
            if distance >= MOST_ELEMENTS as i64 {
                return None;
            }
            Some(distance as u16)
        }
        None => None,
    }
}

/// The numbers from `first` to `last`, none where `last` is below `first`. More than 16,384 have the fault `SetLimit`.
pub fn numbers(alloc: Global, first: i64, last: i64) -> EvalResult<AtomSet>
    ensures { Gives result (meant.range first last) }
{
    if last < first {
        return Ok(AtomSet::new(alloc));
    }
    match distance(first, last) {
        Some(distance) => numbers_on(alloc, first, distance + 1),
        None => Err(Stop::Told(ValueKind::SetLimit)),
    }
}
