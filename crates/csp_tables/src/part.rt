//! Parts: a component of a network as its alphabet and its table.

ghost use Rattle.std.specs.Prelude.{◌≡◌};

use crate::norm_table::NormTable;
use csp_base::EventSet;
use std::marker::Model;

/// A component of a network: the events that it takes part in, and its table.
pub struct Part {
    alphabet: EventSet,
    table: NormTable,
}

impl Drop for Part {
    fn drop(self) {
        let Part { alphabet, table } = self;
    }
}

impl Model for Part {
    ghost use Rattle.csp_tables.specs.Part.{Part as PartValue};

    ghost Value = { PartValue };

    ghost view = { λ p. record { alphabet = p.alphabet; table = p.table } };
}

impl Part {
    /// The component with this alphabet and this table.
    pub fn new(alphabet: EventSet, table: NormTable) -> Part
        ensures { result ≡ record { alphabet = alphabet; table = table } }
    {
        Part { alphabet, table }
    }

    /// The events that the component takes part in.
    pub fn alphabet(&self) -> &EventSet
        ensures { result.now ≡ self.now.alphabet }
    {
        &self.alphabet
    }

    /// The component's table.
    pub fn table(&self) -> &NormTable
        ensures { result.now ≡ self.now.table }
    {
        &self.table
    }
}
