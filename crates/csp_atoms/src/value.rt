//! Values: what an expression can be worth.

ghost use Rattle.std.specs.Prelude.{◌≡◌, IfOk};

use crate::atom::Atom;
use crate::atom_set::AtomSet;
use csp_base::Made;
use std::alloc::Global;

/// The value of an expression.
#[derive(PartialEq, Eq, Hash, Drop)]
pub enum Value {
    /// An atom.
    One(Atom),
    /// A set of atoms of one kind.
    Many(AtomSet),
}

impl Value {
    /// The same value.
    pub fn try_clone(&self, alloc: Global) -> Made<Value>
        ensures { IfOk result (λ copy. copy ≡ self.now) }
    {
        match self {
            Value::One(atom) => Ok(Value::One(*atom)),
            Value::Many(atoms) => atoms.try_clone(alloc).map(Value::Many),
        }
    }
}
