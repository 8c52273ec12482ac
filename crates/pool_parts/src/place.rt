//! The places of the processes of a pool.

ghost use Rattle.pool_parts.specs.ExactId.{exact_id};

use containers::Exact;

/// The place of a process in a pool, from 0 on.
#[derive(Clone, Copy, PartialEq, Eq, Hash)]
pub struct ProcId(pub usize);

impl Exact for ProcId {
    ghost exact = { exact_id };
}
