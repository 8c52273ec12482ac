//! The terms of the components of a program.

ghost use Rattle.csp_program.specs.declared.programs.Content.{Content};
ghost use Rattle.local_tables.specs.Component.{AreTermsOf};

use containers::Key;
use csp_program::Program;
use csp_steps::Evaluated;
use std::alloc::Global;
use term_pool::Pool;

// Where more processes are kept, the next component begins with none.
const MOST_KEPT: usize = 65_536;

/// The terms of components of one program, each once, with what was evaluated for them.
#[derive(Drop)]
pub struct Terms {
    pub(crate) pool: Pool,
    pub(crate) evaluated: Evaluated,
}

impl Terms {
    /// No terms, of any program. They are found by their hashes under this key.
    pub fn new(alloc: Global, key: Key) -> Terms
        ensures { (p : Content) → AreTermsOf p result }
    {
        Terms {
            pool: Pool::new(alloc, key),
            evaluated: Evaluated::new(alloc, key),
        }
    }
}

// Lets the terms go where they are many.
pub(crate) fn make_room(alloc: Global, program: &Program, terms: &mut Terms)
    requires { AreTermsOf program.now terms.old }
    ensures { AreTermsOf program.now terms.new }
{
    if terms.pool.len() > MOST_KEPT {
        *terms = Terms::new(alloc, program.key());
    }
}
