//! Components that conform to their specifications, so that others that are equal to them up to the numbers of their events need not be looked at.

ghost use Rattle.std.specs.Prelude.{IfErr, OnOk};
ghost use Rattle.csp_base.specs.Stops.{Tells};
ghost use Rattle.conformance.specs.Conforming.{AreMatched, TableConforms};
ghost use Rattle.conformance.specs.Told.{Fails};

use crate::conforming::conform;
use crate::fault::ConformFault;
use crate::keys::key_of;
use containers::{Items, Numbering};
use csp_base::Stop;
use csp_tables::Part;
use std::alloc::Global;
use std::marker::Model;

/// Which components conform to their specifications, as far as it was asked.
pub struct ConformingParts {
    known: Numbering<Items<usize>>,
}

impl Drop for ConformingParts {
    fn drop(self) {
        let ConformingParts { known } = self;
    }
}

impl Model for ConformingParts {
    ghost use Rattle.std.specs.Prelude.{List, ℕ};
    ghost use Rattle.conformance.specs.Keys.{AllKeysConform};

    ghost Value = { List (List ℕ) };

    ghost view = { λ p. p.known };

    ghost invariant = { λ p. AllKeysConform p.known };
}

impl ConformingParts {
    /// None yet.
    pub fn new(alloc: Global) -> ConformingParts {
        ConformingParts {
            known: Numbering::new(alloc),
        }
    }

    /// Succeeds where each run of `part` is one of `specified`, and after it each acceptance of the first contains one of the second.
    ///
    /// It takes time in proportion to the tables where a pair that is equal up to the numbers of events was found to conform. Else it takes time in
    /// proportion to the pairs of nodes to which runs lead, with the steps of the first and the logarithm of those of the second (not proved).
    pub fn check(
        &mut self,
        alloc: Global,
        part: &Part,
        specified: &Part,
    ) -> Result<(), Stop<ConformFault>>
        requires { AreMatched part.now specified.now }
        ensures conforms { OnOk result (TableConforms part.now.table specified.now.table) }
        ensures told { IfErr result (Tells (Fails part.now.table specified.now.table)) }
    {
        let key = key_of(alloc, part, specified)?;
        if let Some(_place) = self.known.find(&key) {
            return Ok(());
        }
        conform(alloc, part, specified)?;
        self.known.number(key)?;
        Ok(())
    }
}
