//! Atoms: numbers, truth values, constants of datatypes and events.

ghost use Rattle.std.specs.Prelude.{◌≡◌};
ghost use Rattle.csp_atoms.specs.Order.{kind_of, order_of, less, same, same_kind};

use csp_base::Event;
use std::cmp::Ordering;

/// What an expression can be worth, apart from a set. Atoms are ordered by kind, in the order of the variants, and atoms of one kind by number, `false`
/// before `true`.
#[derive(Clone, Copy, PartialEq, Eq, PartialOrd, Ord, Hash)]
pub enum Atom {
    /// A whole number.
    Num(i64),
    /// A truth value.
    Truth(bool),
    /// The constant of a datatype with this number.
    Const(u32),
    /// An event.
    Event(Event),
}

// What stands in the places of a small vector that are not taken.
impl Default for Atom {
    fn default() -> Atom {
        Atom::Num(0)
    }
}

impl Atom {
    /// Whether both atoms are of one kind.
    pub fn is_of_kind(&self, other: &Atom) -> bool
        ensures { result ≡ same_kind self.now other.now }
    {
        kind(self) == kind(other)
    }
}

// The place of the atom's kind among the kinds.
fn kind(atom: &Atom) -> u8
    ensures { result ≡ kind_of atom.now }
{
    match atom {
        Atom::Num(_) => 0,
        Atom::Truth(_) => 1,
        Atom::Const(_) => 2,
        Atom::Event(_) => 3,
    }
}

/// How two atoms compare: what `cmp` answers, in terms of the definition.
pub fn order(left: &Atom, right: &Atom) -> Ordering
    ensures { result ≡ order_of left.now right.now }
{
    left.cmp(right)
}

/// Whether the first atom comes before the second.
#[tactic(auto, unfolding(crate::specs::Order::less))]
pub(crate) fn precedes(left: &Atom, right: &Atom) -> bool
    ensures { result ≡ less left.now right.now }
{
    order(left, right).is_lt()
}

/// Whether both are one atom.
#[tactic(auto, unfolding(crate::specs::Order::same))]
pub(crate) fn equal(left: &Atom, right: &Atom) -> bool
    ensures { result ≡ same left.now right.now }
{
    order(left, right).is_eq()
}
