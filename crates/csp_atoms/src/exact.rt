//! `==` on atoms, on sets of atoms and on values is equality.

ghost use Rattle.csp_atoms.specs.Exact.{exact_atom, exact_set, exact_value};

use crate::atom::Atom;
use crate::atom_set::AtomSet;
use crate::value::Value;
use containers::Exact;

impl Exact for Atom {
    ghost exact = { exact_atom };
}

impl Exact for AtomSet {
    ghost exact = { exact_set };
}

impl Exact for Value {
    ghost exact = { exact_value };
}
