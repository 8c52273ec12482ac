//! What a condition asks of a component on all its links at once, where its nodes tell which of them are open.

ghost use Rattle.std.specs.Prelude.{◌≡◌, ◌<◌, ◌||◌, ◌&&◌, ℕ, true, nat_eq, IsTrue, IfOk, OnOk, length};
ghost use Rattle.csp_base.specs.Prelude.{has};
ghost use Rattle.csp_tables.specs.Prelude.{is_end};
ghost use Rattle.client_server_conditions.specs.Duties.{AreWatched, IsAsked, IsInTurn, KeepEach, KeepsOpened};
ghost use Rattle.client_server_conditions.specs.Duties.{LinksAreKept, TakesAnswers, is_acknowledged, table_at};

use crate::conditions::RunCondition;
use crate::duty::Duty;
use crate::nodes::{in_turn, some_acknowledged, some_refuses, some_takes};
use csp_base::{Event, EventSet, Made};
use std::alloc::Global;

impl<'a> Duty<'a> {
    // Whether each node tells which links are open there, and keeps what is asked on each of them. The component is explored
    // once, whatever the number of its links.
    pub(crate) fn is_kept_by_nodes(&self, alloc: Global) -> Made<bool>
        ensures { IfOk result (λ kept. kept ≡ true → LinksAreKept self.now) }
    {
        let _linked = self.network.shape();
        let watched = self.watched_links(alloc)?;
        let component = self.component();
        match component.odd_links(alloc, &watched)? {
            Some(opened) => self.each_node_keeps(alloc, opened.as_slice()),
            None => Ok(false),
        }
    }

    // The links on which the condition is asked and that have acknowledgements.
    fn watched_links(&self, alloc: Global) -> Made<EventSet>
        ensures { IfOk result (λ watched. AreWatched self.now watched) }
    {
        let mut watched = EventSet::new(alloc);
        for link in self.network.links(self.part) {
            let watches = self.watches(*link);
            insert_if(&mut watched, *link, watches)?;
        }
        Ok(watched)
    }

    // Whether the condition is asked on the link, and the link has acknowledgements.
    fn watches(&self, link: u32) -> bool
        requires link { link < length self.now.network.now.shape.links }
        requires end { IsTrue (is_end self.now.network.now.shape self.now.part link) }
        ensures { IsAsked self.now link → result ≡ is_acknowledged self.now link }
    {
        let _linked = self.network.shape();
        let asks = self.network.asks(self.part, link);
        let shared = self.network.sorted_shape().link(link).shared();
        let acknowledged = some_acknowledged(shared, self.roles());
        let is_asked = self.condition.is_asked_of(asks, acknowledged);
        acknowledged && is_asked
    }

    // Whether each node keeps what is asked, where the links of its set are open.
    fn each_node_keeps(&self, alloc: Global, opened: &[EventSet]) -> Made<bool>
        requires { length opened.now ≡ length (table_at self.now) }
        ensures { IfOk result (λ kept. kept ≡ true → KeepEach self.now opened.now) }
    {
        let _linked = self.network.shape();
        for node in 0..opened.len() {
            if !self.keeps_at_node(alloc, node as u32, &opened[node])? {
                return Ok(false);
            }
        }
        Ok(true)
    }

    // Whether the node keeps what is asked, where these links are open.
    fn keeps_at_node(&self, alloc: Global, node: u32, opened: &EventSet) -> Made<bool>
        requires { node < length (table_at self.now) }
        ensures { IfOk result (λ kept. kept ≡ true → KeepsOpened self.now self.now.condition node opened.now) }
    {
        match self.condition {
            RunCondition::Turns => Ok(self.takes_turns(node, opened)),
            RunCondition::Service => Ok(self.serves_while_closed(node, opened)),
            RunCondition::Answers => self.takes_answers(alloc, node, opened),
        }
    }

    // Whether each event that is possible is in turn on its link.
    fn takes_turns(&self, node: u32, opened: &EventSet) -> bool
        requires { node < length (table_at self.now) }
        ensures { result ≡ true → KeepsOpened self.now RunCondition.Turns node opened.now }
    {
        let _linked = self.network.shape();
        for (event, _) in self.steps(node) {
            if !self.takes_in_turn(opened, *event) {
                return false;
            }
        }
        true
    }

    // Whether the event is in turn on its link, if it has one.
    fn takes_in_turn(&self, opened: &EventSet, event: Event) -> bool
        ensures { result ≡ true → IsInTurn self.now opened.now event }
    {
        let Some(link) = self.network.sorted_shape().owner(event) else {
            return true;
        };
        in_turn(self.roles(), event, opened.contains(Event(link)))
    }

    // Whether no link is open, or no request is taken.
    fn serves_while_closed(&self, node: u32, opened: &EventSet) -> bool
        requires { node < length (table_at self.now) }
        ensures { result ≡ true → KeepsOpened self.now RunCondition.Service node opened.now }
    {
        if opened.is_empty() {
            return true;
        }
        !some_takes(
            self.acceptances(node),
            self.vocabulary(),
            self.roles().sreq(),
        )
    }

    // Whether each acknowledgement of each open link is taken.
    fn takes_answers(&self, alloc: Global, node: u32, opened: &EventSet) -> Made<bool>
        requires { node < length (table_at self.now) }
        ensures { IfOk result (λ kept. kept ≡ true → KeepsOpened self.now RunCondition.Answers node opened.now) }
    {
        for link in opened.iter() {
            if !self.takes_answers_on(alloc, node, link.0)? {
                return Ok(false);
            }
        }
        Ok(true)
    }

    // Whether each acknowledgement of the link is taken.
    fn takes_answers_on(&self, alloc: Global, node: u32, link: u32) -> Made<bool>
        requires { node < length (table_at self.now) }
        ensures { IfOk result (λ kept. kept ≡ true → TakesAnswers self.now node link) }
    {
        let count = self.network.shape().links().len();
        if link as usize >= count {
            return Ok(false);
        }
        let shared = self.network.sorted_shape().link(link).shared();
        let acknowledgements = shared.inter(alloc, self.roles().cack())?;
        Ok(!some_refuses(self.acceptances(node), self.vocabulary(), &acknowledgements))
    }
}

// Adds the link to the set, if it is wanted.
fn insert_if(set: &mut EventSet, link: u32, wanted: bool) -> Made<()>
    ensures { OnOk result ((l : ℕ) → has set.new l ≡ (has set.old l || (wanted && nat_eq link l))) }
{
    if !wanted {
        return Ok(());
    }
    set.insert(Event(link))?;
    Ok(())
}
