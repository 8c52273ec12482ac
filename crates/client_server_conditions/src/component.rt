//! What is read of a component that has to keep a condition.

ghost use Rattle.std.specs.Prelude.{◌≡◌, ◌<◌, length};
ghost use Rattle.csp_tables.specs.Prelude.{role_at};
ghost use Rattle.observed_runs.specs.Prelude.{AreEnough};
ghost use Rattle.client_server_conditions.specs.Duties.{node_of, table_at};

use crate::duty::Duty;
use csp_base::{Event, EventSet};
use csp_tables::RoleSets;
use shape_links::Component;

impl<'a> Duty<'a> {
    // The component.
    pub(crate) fn component(&self) -> Component<'a>
        ensures shape { result.shape.now ≡ self.now.network.now.shape }
        ensures number { result.number ≡ self.now.part }
    {
        self.network.sorted_shape().component(self.part)
    }

    // Its roles.
    pub(crate) fn roles(&self) -> &'a RoleSets
        ensures { result.now ≡ role_at self.now.network.now.roles self.now.part }
    {
        self.network.roles(self.part)
    }

    // The shared events of the network.
    pub(crate) fn vocabulary(&self) -> &'a EventSet
        ensures { result.now ≡ self.now.network.now.shape.vocabulary }
    {
        self.network.shape().vocabulary()
    }

    // The acceptances of its node.
    pub(crate) fn acceptances(&self, node: u32) -> &'a [EventSet]
        requires { node < length (table_at self.now) }
        ensures { result.now ≡ (node_of self.now node).accept }
    {
        self.component().node(node).accept()
    }

    // The steps of its node that an observer of shared events has to follow.
    pub(crate) fn steps(&self, node: u32) -> &'a [(Event, u32)]
        requires { node < length (table_at self.now) }
        ensures { AreEnough self.now.network.now.shape.vocabulary (node_of self.now node).next result.now }
    {
        self.component().steps(node)
    }
}
