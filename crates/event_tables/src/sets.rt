//! The field sets of channels.

ghost use Rattle.std.specs.Prelude.{◌≡◌, ◌++◌, map, IfOk, IsTrue, OnOk, replicate, slice_get};
ghost use Rattle.std.specs.Option.{option_copied};
ghost use Rattle.csp_program.specs.Prelude.{lacks_sets, all_true, and_then, value_of};
ghost use Rattle.event_tables.specs.Spread.{GivesOneMore, lent, spread};
ghost use Rattle.script_names.specs.Resolved as meant;
ghost use Rattle.value_operators.specs.Gives.{Gives};

use containers::Items;
use csp_atoms::{Atom, AtomSet, Value};
use csp_base::{Made, Stop};
use csp_program::{Content, Expr, ValueKind};
use csp_values::{EvalResult, eval_in};
use std::alloc::Global;
use value_operators::operators::to_set;

/// The field sets that the channels of one declaration share.
#[derive(Drop)]
pub struct SharedSets {
    /// How many channels there are.
    pub channels: usize,
    /// The values of each field.
    pub sets: Items<AtomSet>,
}

/// The field sets of a channel of these types, from the left. A fault is told exactly where a type has no value that fits.
pub fn field_sets(alloc: Global, content: &Content, types: &[Expr]) -> EvalResult<Items<AtomSet>>
    requires { IsTrue (all_true (map lacks_sets content.now.channels)) }
    ensures { Gives result (meant.field_sets content.now types.now) }
{
    let mut sets = Items::new(alloc);
    for expr in types {
        add_set(alloc, content, &mut sets, expr)?;
    }
    Ok(sets)
}

// Puts the set of one more type at the end.
fn add_set(
    alloc: Global,
    content: &Content,
    sets: &mut Items<AtomSet>,
    expr: &Expr,
) -> EvalResult<()>
    requires { IsTrue (all_true (map lacks_sets content.now.channels)) }
    ensures { GivesOneMore result sets.old sets.new (and_then (value_of content.now expr.now) meant.field_set) }
{
    let set = set_of(eval_in(alloc, content, expr)?)?;
    sets.push(set)?;
    Ok(())
}

// The set that the type of a field is worth.
fn set_of(value: Value) -> EvalResult<AtomSet>
    ensures { Gives result (meant.field_set value) }
{
    let set = to_set(value)?;
    if may_be_fields(set.as_slice()) {
        Ok(set)
    } else {
        Err(Stop::Told(ValueKind::Kind))
    }
}

// Whether all of these may be values of a field.
fn may_be_fields(atoms: &[Atom]) -> bool
    ensures { result ≡ all_true (map meant.may_be_field atoms.now) }
{
    for atom in atoms {
        if !may_be_field(*atom) {
            return false;
        }
    }
    true
}

// Whether this may be the value of a field.
fn may_be_field(atom: Atom) -> bool
    ensures { result ≡ meant.may_be_field atom }
{
    matches!(atom, Atom::Num(_) | Atom::Const(_))
}

/// The same sets.
pub fn copy_sets(alloc: Global, sets: &[AtomSet]) -> Made<Items<AtomSet>>
    ensures { IfOk result (λ copies. copies ≡ sets.now) }
{
    let mut copies = Items::new(alloc);
    for set in sets {
        copies.push_made(set.try_clone(alloc))?;
    }
    Ok(copies)
}

/// The field sets of each channel, one after another. The channels of a declaration share them.
pub fn spread_sets<'a>(alloc: Global, shared: &'a [SharedSets]) -> Made<Vec<&'a [AtomSet]>>
    ensures { IfOk result (λ all. lent all.items ≡ spread shared.now) }
{
    let mut all = Vec::new(alloc);
    for one in shared {
        add_lent(&mut all, one)?;
    }
    Ok(all)
}

// Puts the field sets of each channel of a declaration at the end.
fn add_lent<'a>(all: &mut Vec<&'a [AtomSet]>, one: &'a SharedSets) -> Made<()>
    ensures { OnOk result (lent all.new.items ≡ lent all.old.items ++ replicate one.now.channels one.now.sets) }
{
    for _channel in 0..one.channels {
        all.push(one.sets.as_slice())?;
    }
    Ok(())
}

/// The field sets of the channel with the number `c`, if there are any.
pub fn sets_at<'a>(all: &[&'a [AtomSet]], c: usize) -> Option<&'a [AtomSet]>
    ensures { option_copied result ≡ slice_get (lent all.now) c }
{
    all.get(c).copied()
}
