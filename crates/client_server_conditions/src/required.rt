//! What the conditions require of a component, node by node.

ghost use Rattle.std.specs.Prelude.{◌≡◌, ◌<◌, ◌&&◌, ℕ, not, false, nat_eq, length};
ghost use Rattle.std.specs.List.{list_any};
ghost use Rattle.csp_base.specs.Prelude.{has};
ghost use Rattle.csp_tables.specs.Prelude.{node_at};
ghost use Rattle.shape_links.specs.Component.{table_of};
ghost use Rattle.client_server_conditions.specs.Nodes.{splits};
ghost use Rattle.client_server_conditions.specs.Tests.{keeps};

use crate::conditions::RunCondition;
use crate::nodes::{some_out_of_turn, some_refuses, some_splits, some_takes};
use csp_base::{EventSet, Made};
use csp_tables::RoleSets;
use shape_links::{Component, Requirement};

// What a condition requires of a component on one of its links, in the parity of the link's events.
#[derive(Drop)]
pub(crate) struct OnLink<'a> {
    pub(crate) condition: RunCondition,
    pub(crate) component: Component<'a>,
    pub(crate) roles: &'a RoleSets,
    pub(crate) shared: &'a EventSet,
    pub(crate) acknowledgements: &'a EventSet,
    // whether the link has acknowledgements
    pub(crate) acknowledged: bool,
    ghost only: { (e : ℕ) → has component.shape.now.vocabulary e ≡ false → has shared.now e ≡ false },
}

impl<'a> OnLink<'a> {
    // Whether the node keeps the condition where the link is open or not.
    fn keeps(&self, node: u32, opened: bool) -> bool
        requires { node < length (table_of self.now.component) }
        ensures { result ≡ keeps self.now.condition self.now.component.shape.now.vocabulary self.now.shared.now
            self.now.roles.now self.now.acknowledgements.now (node_at (table_of self.now.component) node) opened }
    {
        let vocabulary = self.component.shape.shape().vocabulary();
        let accept = self.component.node(node).accept();
        match self.condition {
            RunCondition::Turns => {
                let steps = self.component.steps(node);
                !some_out_of_turn(steps, self.shared, self.roles, opened)
            }
            RunCondition::Service => !(opened && some_takes(accept, vocabulary, self.roles.sreq())),
            RunCondition::Answers => {
                !(opened && some_refuses(accept, vocabulary, self.acknowledgements))
            }
        }
    }
}

impl<'a> Requirement for OnLink<'a> {
    ghost nodes = { λ required. length (table_of required.component) };

    ghost meets = { λ required node state. keeps required.condition required.component.shape.now.vocabulary
        required.shared.now required.roles.now required.acknowledgements.now
        (node_at (table_of required.component) node)
        (required.acknowledged && nat_eq state 1) };

    fn is_met(&self, node: u32, state: u32) -> Made<bool> {
        Ok(self.keeps(node, self.acknowledged && state == 1))
    }
}

// No acceptance in the vocabulary has some of the requests to a component and not all.
#[derive(Drop)]
pub(crate) struct Undivided<'a> {
    pub(crate) component: Component<'a>,
    pub(crate) requests: &'a EventSet,
}

impl<'a> Requirement for Undivided<'a> {
    ghost nodes = { λ required. length (table_of required.component) };

    ghost meets = { λ required node _. not (list_any
        (splits required.component.shape.now.vocabulary required.requests.now)
        (node_at (table_of required.component) node).accept) };

    fn is_met(&self, node: u32, _state: u32) -> Made<bool> {
        let vocabulary = self.component.shape.shape().vocabulary();
        let accept = self.component.node(node).accept();
        Ok(!some_splits(accept, vocabulary, self.requests))
    }
}
