//! The numbers of bound names, by the order of the names.

ghost use Rattle.std.specs.Prelude.{◌≡◌, None, Some, true, is_some, OnOk, OnErr, IfOk, ℕ, List};
ghost use Rattle.name_tables.specs.Prelude.{Writes, at_name};

use csp_base::{Made, Name};
use std::alloc::Global;
use std::collections::BTreeMap;

/// The bytes of a name, by which it is found.
pub fn spelling_of(alloc: Global, name: &Name) -> Made<Vec<u8>>
    ensures { IfOk result (λ spelling. spelling.items ≡ name.now) }
{
    name.as_slice().to_vec(alloc)
}

/// The number that is written of a name.
pub fn number_at(last: &BTreeMap<Vec<u8>, u32>, name: &Name) -> Option<u32>
    ensures { result ≡ at_name last.now name.now }
{
    last.get(name.as_slice()).copied()
}

/// Writes the number of a name, and tells what it was before.
pub fn write(last: &mut BTreeMap<Vec<u8>, u32>, spelling: Vec<u8>, number: u32) -> Made<Option<u32>>
    ensures before { IfOk result (λ before. before ≡ at_name last.old spelling.items) }
    ensures writes { OnOk result (Writes last.old last.new spelling.items (Some number)) }
    ensures err { OnErr result ((x : List ℕ) → at_name last.new x ≡ at_name last.old x) }
{
    let before = last.insert(spelling, number)?;
    Ok(before)
}

/// Writes the number of a name that has one.
pub fn rewrite(last: &mut BTreeMap<Vec<u8>, u32>, name: &Name, number: u32)
    requires { is_some (at_name last.old name.now) ≡ true }
    ensures { Writes last.old last.new name.now (Some number) }
{
    if let Some(place) = last.get_mut(name.as_slice()) {
        *place = number;
    }
}

/// Takes a name out.
pub fn forget(last: &mut BTreeMap<Vec<u8>, u32>, name: &Name)
    ensures { Writes last.old last.new name.now None }
{
    last.remove(name.as_slice());
}
