//! What the names of a script mean, for walks over its trees.

ghost use Rattle.std.specs.Prelude.{◌≡◌, slice_get};
ghost use Rattle.script_names.specs.Faults.{kind_class, kind_network};

use crate::Dictionary;
use script_names::{Class, Kind};
use std::alloc::Global;

/// What names stand for where nothing binds them.
#[derive(Drop)]
pub struct Meanings<'a> {
    /// Where memory comes from.
    pub alloc: Global,
    /// What they are declared as.
    pub names: &'a Dictionary,
    /// What the definitions are.
    pub kinds: &'a [Kind],
}

/// What the definition with this number is, where definitions are of these kinds.
pub fn kind_at(kinds: &[Kind], d: usize) -> Kind
    ensures class { result.class ≡ kind_class (slice_get kinds.now d) }
    ensures network { result.network ≡ kind_network (slice_get kinds.now d) }
{
    match kinds.get(d) {
        Some(kind) => *kind,
        None => Kind {
            class: Class::Unknown,
            network: false,
        },
    }
}
