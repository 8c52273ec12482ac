//! Whether a user acquires and releases in turn, where its nodes tell which resources it holds there.

ghost use Rattle.std.specs.Prelude.{◌≡◌, ◌<◌, ℕ, List, [], true, IfOk, IfSome, get_or, length};
ghost use Rattle.csp_base.specs.Prelude.{has};
ghost use Rattle.csp_tables.specs.Prelude.{is_possible, part_at};
ghost use Rattle.design_rules.specs.Resource.{UsesInTurn};
ghost use Rattle.resource_rule.specs.Holdings.{AreHeld};
ghost use Rattle.resource_rule.specs.Uses.{IsInTurn};
ghost use Rattle.shape_links.specs.Setting.{node_of};

use crate::user::User;
use csp_base::{Event, EventSet, Made};
use std::alloc::Global;

impl<'a> User<'a> {
    // Whether each node of the part tells on which links it holds a resource there, and each event is in turn.
    pub(crate) fn turns_by_nodes(&self, alloc: Global) -> Made<bool>
        ensures { IfOk result (λ in_turn. in_turn ≡ true → (s : List ℕ)
            → UsesInTurn self.now.setting.now.shape self.now.setting.now.uses self.now.part s) }
    {
        let _form = self.setting.shape();
        match self.held_links(alloc)? {
            Some(held) => Ok(self.all_in_turn(held.as_slice())),
            None => Ok(false),
        }
    }

    // For each node of the part the links on which it holds a resource there; nothing where its nodes do not tell that.
    pub(crate) fn held_links(&self, alloc: Global) -> Made<Option<Vec<EventSet>>>
        ensures { IfOk result (λ held. IfSome held (λ sets. AreHeld self.now.setting.now self.now.part sets.items)) }
    {
        let component = self.setting.component(self.part);
        let links = link_set(alloc, self.links())?;
        component.odd_links(alloc, &links)
    }

    // Whether each event is in turn at each node, by the links on which the part holds a resource there.
    fn all_in_turn(&self, held: &[EventSet]) -> bool
        requires { length held.now ≡ length (part_at self.now.setting.now.shape.parts self.now.part).table }
        ensures { result ≡ true → (n e : ℕ) → n < length held.now
            → is_possible (node_of self.now.setting.now self.now.part n).next e ≡ true
            → IsInTurn self.now.setting.now self.now.part (get_or held.now n []) e }
    {
        let _form = self.setting.shape();
        for node in 0..held.len() {
            if !self.node_in_turn(node as u32, &held[node]) {
                return false;
            }
        }
        true
    }

    // Whether each event that is possible at the node is in turn.
    fn node_in_turn(&self, node: u32, held: &EventSet) -> bool
        requires node { node < length (part_at self.now.setting.now.shape.parts self.now.part).table }
        ensures { result ≡ true → (e : ℕ) → is_possible (node_of self.now.setting.now self.now.part node).next e ≡ true
            → IsInTurn self.now.setting.now self.now.part held.now e }
    {
        let _form = self.setting.shape();
        let component = self.setting.component(self.part);
        for (event, _) in component.steps(node) {
            if !self.in_turn(held, *event) {
                return false;
            }
        }
        true
    }

    // Whether the event acquires or releases in turn, if it is on a link of the part.
    fn in_turn(&self, held: &EventSet, event: Event) -> bool
        ensures { result ≡ true → IsInTurn self.now.setting.now self.now.part held.now event }
    {
        let _form = self.setting.shape();
        let Some(link) = self.setting.owner(event) else {
            return true;
        };
        let uses = self.setting.uses(self.other_end(link));
        if held.contains(Event(link)) {
            return uses.release().contains(event);
        }
        uses.acquire().contains(event)
    }
}

// The set of the links.
fn link_set(alloc: Global, links: &[u32]) -> Made<EventSet>
    ensures { IfOk result (λ made. (l : ℕ) → has made l ≡ has links.now l) }
{
    let mut made = EventSet::new(alloc);
    for link in links {
        made.insert(Event(*link))?;
    }
    Ok(made)
}
