//! How a component is used as a resource.

ghost use Rattle.std.specs.Prelude.{◌≡◌};

use csp_base::EventSet;
use std::marker::Model;

/// Whether a component is a resource, and the events that acquire and that release it.
pub struct UseSets {
    resource: bool,
    acquire: EventSet,
    release: EventSet,
}

impl Drop for UseSets {
    fn drop(self) {
        let UseSets {
            resource,
            acquire,
            release,
        } = self;
    }
}

impl Model for UseSets {
    ghost use Rattle.csp_tables.specs.Roles.{UseSets as Uses};

    ghost Value = { Uses };

    ghost view = { λ u. record { resource = u.resource; acquire = u.acquire; release = u.release } };
}

impl UseSets {
    /// Whether the component is a resource, the events that acquire it, and those that release it.
    pub fn new(resource: bool, acquire: EventSet, release: EventSet) -> UseSets
        ensures { result ≡ record { resource = resource; acquire = acquire; release = release } }
    {
        UseSets {
            resource,
            acquire,
            release,
        }
    }

    /// Whether the component is a resource.
    pub fn is_resource(&self) -> bool
        ensures { result ≡ self.now.resource }
    {
        self.resource
    }

    /// The events that acquire the resource.
    pub fn acquire(&self) -> &EventSet
        ensures { result.now ≡ self.now.acquire }
    {
        &self.acquire
    }

    /// The events that release the resource.
    pub fn release(&self) -> &EventSet
        ensures { result.now ≡ self.now.release }
    {
        &self.release
    }
}
