//! The values of the fields of a channel's events.

ghost use Rattle.std.specs.Prelude.{◌≡◌, [], ◌∷◌, ◌++◌, map, IfOk, OnOk};
ghost use Rattle.csp_atoms.specs.declared.atom.Atom.{Atom};
ghost use Rattle.csp_program.specs.EventTable as meant;
ghost use Rattle.event_tables.specs.Spread.{extended};

use containers::Items;
use csp_atoms::{Atom, AtomSet};
use csp_base::Made;
use std::alloc::Global;
use value_operators::numbers::row_count;

/// The lists that take one value from each set, the first set slowest.
pub fn rows(alloc: Global, sets: &[AtomSet]) -> Made<Vec<Items<Atom>>>
    ensures { IfOk result (λ made. made.items ≡ meant.rows sets.now) }
{
    // Without this, the lists before a later empty set would be built in vain.
    if row_count(sets) == 0 {
        return Ok(Vec::new(alloc));
    }
    let mut made = no_fields(alloc)?;
    for set in sets {
        made = extend(alloc, made, set.as_slice())?;
    }
    Ok(made)
}

// The one list without a value.
fn no_fields(alloc: Global) -> Made<Vec<Items<Atom>>>
    ensures { IfOk result (λ made. made.items ≡ [] ∷ []) }
{
    let mut made = Vec::new(alloc);
    made.push(Items::new(alloc))?;
    Ok(made)
}

// Each of the lists with each value of the set at its end.
fn extend(alloc: Global, rows: Vec<Items<Atom>>, set: &[Atom]) -> Made<Vec<Items<Atom>>>
    ensures { IfOk result (λ made. made.items ≡ extended rows.items set.now) }
{
    let mut made = Vec::new(alloc);
    for row in rows {
        add_longer(alloc, &mut made, row, set)?;
    }
    Ok(made)
}

// Adds a list with each value of the set at its end. The last of them is the list itself, so that a set of one value copies nothing.
fn add_longer(
    alloc: Global,
    made: &mut Vec<Items<Atom>>,
    row: Items<Atom>,
    set: &[Atom],
) -> Made<()>
    ensures { OnOk result (made.new.items ≡ made.old.items ++ map (λ (a : Atom). row ++ a ∷ []) set.now) }
{
    match set.split_last() {
        Some((last, before)) => {
            add_copies(alloc, made, row.as_slice(), before)?;
            add_last(made, row, *last)
        }
        None => Ok(()),
    }
}

// Adds copies of a list with each value of the set at their ends.
fn add_copies(alloc: Global, made: &mut Vec<Items<Atom>>, row: &[Atom], set: &[Atom]) -> Made<()>
    ensures { OnOk result (made.new.items ≡ made.old.items ++ map (λ (a : Atom). row.now ++ a ∷ []) set.now) }
{
    for atom in set {
        let copy = Items::from_slice(alloc, row)?;
        add_last(made, copy, *atom)?;
    }
    Ok(())
}

// Adds a list with one more value at its end.
fn add_last(made: &mut Vec<Items<Atom>>, mut row: Items<Atom>, atom: Atom) -> Made<()>
    ensures { OnOk result (made.new.items ≡ made.old.items ++ (row ++ atom ∷ []) ∷ []) }
{
    row.push(atom)?;
    made.push(row)?;
    Ok(())
}
