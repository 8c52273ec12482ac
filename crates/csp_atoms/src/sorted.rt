//! Rising lists of atoms: the work of sets of atoms, over slices and vectors.

ghost use Rattle.std.specs.Prelude.{◌≡◌, ◌+◌, ◌<◌, Some, None, IfOk, OnOk, OnErr};
ghost use Rattle.std.specs.Option.{option_map};
ghost use Rattle.csp_atoms.specs.Prelude.{result_of, least_of, begins_with, rest_after, with_last, count_before, stands_at, IsRising, alike, event_number, event_numbers, fits, has_atom, place_of, with_atom};
ghost use Rattle.csp_base.specs.Operations.{keeps};

use crate::atom::{Atom, equal, precedes};
use containers::Items;
use csp_base::{Event, EventSet, Made, SetOp};
use std::alloc::Global;

// How many atoms come before the given one, by binary search.
fn lower_bound(atoms: &[Atom], atom: &Atom) -> usize
    requires { IsRising atoms.now }
    ensures { result ≡ count_before atoms.now atom.now }
{
    let mut low = 0;
    let mut high = atoms.len();
    while low < high {
        let middle = low + (high - low) / 2;
        if precedes(&atoms[middle], atom) {
            low = middle + 1;
        } else {
            high = middle;
        }
    }
    low
}

// Whether the atom stands at that place.
fn is_at(atoms: &[Atom], place: usize, atom: &Atom) -> bool
    ensures { result ≡ stands_at atoms.now place atom.now }
{
    if place >= atoms.len() {
        return false;
    }
    equal(&atoms[place], atom)
}

/// The place of the atom, where it is a member.
pub(crate) fn find(atoms: &[Atom], atom: &Atom) -> Option<usize>
    requires { IsRising atoms.now }
    ensures { result ≡ place_of atoms.now atom.now }
{
    let place = lower_bound(atoms, atom);
    if is_at(atoms, place, atom) {
        return Some(place);
    }
    None
}

/// Whether the atom is a member.
pub(crate) fn contains(atoms: &[Atom], atom: &Atom) -> bool
    requires { IsRising atoms.now }
    ensures { result ≡ has_atom atoms.now atom.now }
{
    find(atoms, atom).is_some()
}

/// Adds the atom at its place, where it isn't there yet. An error changes nothing.
pub(crate) fn include(atoms: &mut Items<Atom>, atom: &Atom) -> Made<()>
    requires { IsRising atoms.old }
    ensures ok { OnOk result (atoms.new ≡ with_atom atoms.old atom.now) }
    ensures err { OnErr result (atoms.new ≡ atoms.old) }
{
    let place = lower_bound(atoms.as_slice(), atom);
    if is_at(atoms.as_slice(), place, atom) {
        return Ok(());
    }
    atoms.insert(place, *atom)?;
    Ok(())
}

/// Whether a list that is empty or of one kind can take the atom.
pub(crate) fn can_take(atoms: &[Atom], atom: &Atom) -> bool
    ensures { result ≡ fits atoms.now atom.now }
{
    match atoms.first() {
        None => true,
        Some(first) => first.is_of_kind(atom),
    }
}

/// Whether two lists of one kind each are of one kind together.
pub(crate) fn can_join(left: &[Atom], right: &[Atom]) -> bool
    ensures { result ≡ alike left.now right.now }
{
    match right.first() {
        None => true,
        Some(first) => can_take(left, first),
    }
}

// The least atom of both lists.
fn least(left: &[Atom], right: &[Atom]) -> Option<Atom>
    ensures { result ≡ least_of left.now right.now }
{
    if left.is_empty() {
        return right.first().copied();
    }
    if right.is_empty() || !precedes(&right[0], &left[0]) {
        return Some(left[0]);
    }
    Some(right[0])
}

// Whether the list begins with the atom.
fn starts_with(atoms: &[Atom], atom: &Atom) -> bool
    ensures { result ≡ begins_with atoms.now atom.now }
{
    match atoms.first() {
        None => false,
        Some(first) => equal(first, atom),
    }
}

// The list without its first atom, where it begins with the given one.
fn past_front<'a>(atoms: &'a [Atom], atom: &Atom) -> &'a [Atom]
    ensures { result.now ≡ rest_after atoms.now atom.now }
{
    if atoms.is_empty() || !equal(&atoms[0], atom) {
        atoms
    } else {
        &atoms[1..]
    }
}

// Whether an atom is in the result, by whether it is in both sets.
fn is_kept(operation: SetOp, left: bool, right: bool) -> bool
    ensures { result ≡ keeps operation left right }
{
    match operation {
        SetOp::Union => left || right,
        SetOp::Inter => left && right,
        SetOp::Diff => left && !right,
    }
}

// Adds an atom at the end, where the test says so.
fn push_if(made: &mut Vec<Atom>, kept: bool, atom: &Atom) -> Made<()>
    ensures ok { OnOk result (made.new.items ≡ with_last made.old.items kept atom.now) }
    ensures err { OnErr result (made.new.items ≡ made.old.items) }
{
    if kept {
        made.push(*atom)?;
    }
    Ok(())
}

/// The operation on both lists, in a walk over both.
pub(crate) fn merge(
    alloc: Global,
    operation: SetOp,
    left: &[Atom],
    right: &[Atom],
) -> Made<Items<Atom>>
    requires left_rises { IsRising left.now }
    requires right_rises { IsRising right.now }
    ensures { IfOk result (λ made. made ≡ result_of operation left.now right.now) }
{
    let mut made = Vec::new(alloc);
    let mut first = left;
    let mut second = right;
    while let Some(atom) = least(first, second) {
        let kept = is_kept(
            operation,
            starts_with(first, &atom),
            starts_with(second, &atom),
        );
        push_if(&mut made, kept, &atom)?;
        first = past_front(first, &atom);
        second = past_front(second, &atom);
    }
    Ok(Items::from_vec(made))
}

// The event that an atom is.
fn event_of(atom: &Atom) -> Option<Event>
    ensures { result ≡ event_number atom.now }
{
    match atom {
        Atom::Event(event) => Some(*event),
        _ => None,
    }
}

/// The events of the list, if all its atoms are events.
pub(crate) fn events(alloc: Global, atoms: &[Atom]) -> Made<Option<Vec<Event>>>
    ensures { IfOk result (λ found. option_map (λ made. made.items) found ≡ event_numbers atoms.now) }
{
    let mut made = Vec::new(alloc);
    for atom in atoms {
        match event_of(atom) {
            Some(event) => made.push(event)?,
            None => return Ok(None),
        }
    }
    Ok(Some(made))
}
