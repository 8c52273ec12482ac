//! The roles of a component as a client and as a server.

ghost use Rattle.std.specs.Prelude.{◌≡◌};

use csp_base::EventSet;
use std::marker::Model;

/// The requests and the acknowledgements of a component as a client, and those as a server.
pub struct RoleSets {
    creq: EventSet,
    cack: EventSet,
    sreq: EventSet,
    sack: EventSet,
}

impl Drop for RoleSets {
    fn drop(self) {
        let RoleSets {
            creq,
            cack,
            sreq,
            sack,
        } = self;
    }
}

impl Model for RoleSets {
    ghost use Rattle.csp_tables.specs.Roles.{RoleSets as Roles};

    ghost Value = { Roles };

    ghost view = { λ r. record { creq = r.creq; cack = r.cack; sreq = r.sreq; sack = r.sack } };
}

impl RoleSets {
    /// The requests and acknowledgements as a client, and the requests and acknowledgements as a server.
    pub fn new(creq: EventSet, cack: EventSet, sreq: EventSet, sack: EventSet) -> RoleSets
        ensures { result ≡ record { creq = creq; cack = cack; sreq = sreq; sack = sack } }
    {
        RoleSets {
            creq,
            cack,
            sreq,
            sack,
        }
    }

    /// The requests as a client.
    pub fn creq(&self) -> &EventSet
        ensures { result.now ≡ self.now.creq }
    {
        &self.creq
    }

    /// The acknowledgements as a client.
    pub fn cack(&self) -> &EventSet
        ensures { result.now ≡ self.now.cack }
    {
        &self.cack
    }

    /// The requests as a server.
    pub fn sreq(&self) -> &EventSet
        ensures { result.now ≡ self.now.sreq }
    {
        &self.sreq
    }

    /// The acknowledgements as a server.
    pub fn sack(&self) -> &EventSet
        ensures { result.now ≡ self.now.sack }
    {
        &self.sack
    }
}
