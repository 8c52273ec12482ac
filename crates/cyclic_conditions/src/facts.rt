//! Which link a component comes to at each place of its lap.

ghost use Rattle.std.specs.Prelude.{◌≡◌, ◌<◌, ℕ, None, Some, IfErr, IfOk, IfSome, OnOk, length, replicate};
ghost use Rattle.cyclic_conditions.specs.Facts.{AreClashing, AreFirsts, AreMore, AreNoted, ClashesWith, HasFirst, IsEventNoted, IsNoted, IsNotedAt, IsPossibleAt, first_at, is_of_link, links_in_order};
ghost use Rattle.cyclic_conditions.specs.Laps.{AreLaps};

use crate::laps::Laps;
use containers::Items;
use csp_base::{Event, Made};
use std::alloc::Global;

// At a pair an event of a link is possible.
#[derive(Clone, Copy)]
pub(crate) struct Fact {
    pub(crate) pair: usize,
    pub(crate) event: Event,
    pub(crate) link: u32,
}

// Two facts that no order of the links allows.
#[derive(Clone, Copy)]
pub(crate) struct Clash {
    pub(crate) here: Fact,
    pub(crate) there: Fact,
}

// For each of so many places no fact.
pub(crate) fn no_facts(alloc: Global, count: usize) -> Made<Vec<Option<Fact>>>
    ensures { IfOk result (λ firsts. firsts.items ≡ replicate count None) }
{
    let firsts = vec![in alloc; None; count]?;
    Ok(firsts)
}

// Notes each link of which an event is possible at one of the pairs.
pub(crate) fn note_all(laps: &Laps<'_>, firsts: &mut [Option<Fact>]) -> Result<(), Clash>
    requires laps { AreLaps laps.now }
    requires firsts { AreFirsts laps.now firsts.old }
    ensures firsts { OnOk result (AreFirsts laps.now firsts.new) }
    ensures noted { OnOk result (AreNoted laps.now firsts.new) }
    ensures clash { IfErr result (λ clash. AreClashing laps.now clash.here clash.there) }
{
    for pair in 0..laps.explored.pairs().len() {
        note_pair(laps, pair, firsts)?;
    }
    Ok(())
}

// Notes each link of which an event is possible at the pair.
fn note_pair(laps: &Laps<'_>, pair: usize, firsts: &mut [Option<Fact>]) -> Result<(), Clash>
    requires laps { AreLaps laps.now }
    requires within { pair < length laps.now.explored.pairs }
    requires firsts { AreFirsts laps.now firsts.old }
    ensures more { OnOk result (AreMore laps.now firsts.old firsts.new) }
    ensures noted { OnOk result (IsNoted laps.now firsts.new pair) }
    ensures clash { IfErr result (λ clash. AreClashing laps.now clash.here clash.there) }
{
    let (node, _) = laps.explored.pairs()[pair];
    for (event, _) in laps.component.steps(node) {
        note_event(laps, pair, *event, firsts)?;
    }
    Ok(())
}

// Notes the link of the event, which is possible at the pair, if it has one.
fn note_event(
    laps: &Laps<'_>,
    pair: usize,
    event: Event,
    firsts: &mut [Option<Fact>],
) -> Result<(), Clash>
    requires laps { AreLaps laps.now }
    requires within { pair < length laps.now.explored.pairs }
    requires possible { IsPossibleAt laps.now pair event }
    requires firsts { AreFirsts laps.now firsts.old }
    ensures more { OnOk result (AreMore laps.now firsts.old firsts.new) }
    ensures noted { OnOk result (IsEventNoted laps.now firsts.new pair event) }
    ensures clash { IfErr result (λ clash. AreClashing laps.now clash.here clash.there) }
{
    let Some(link) = laps.component.shape.owner(event) else {
        return Ok(());
    };
    let (_, place) = laps.explored.pairs()[pair];
    note(firsts, place as usize, Fact { pair, event, link })
}

// Keeps the fact at its place, where none is kept there yet.
fn note(firsts: &mut [Option<Fact>], place: usize, fact: Fact) -> Result<(), Clash>
    requires { place < length firsts.old }
    ensures noted { OnOk result (IsNotedAt place fact firsts.old firsts.new) }
    ensures clash { IfErr result (λ clash. (clash.here ≡ fact) × ClashesWith place fact firsts.old clash.there) }
{
    if let Some(first) = firsts[place] {
        if first.link == fact.link {
            return Ok(());
        }
        return Err(Clash {
            here: fact,
            there: first,
        });
    }
    if let Some(other) = fact_of(firsts, fact.link) {
        return Err(Clash {
            here: fact,
            there: other,
        });
    }
    firsts[place] = Some(fact);
    Ok(())
}

// The fact of this link that is kept, if there is one.
fn fact_of(firsts: &[Option<Fact>], link: u32) -> Option<Fact>
    ensures found { IfSome result (λ f. (f.link ≡ link) × (r : ℕ) × (first_at firsts.now r ≡ Some f)) }
    ensures none { result ≡ None → (r : ℕ) → HasFirst firsts.now r link → ⊥ }
{
    for first in firsts {
        if is_of(first, link) {
            return *first;
        }
    }
    None
}

// Whether the fact is of this link.
fn is_of(first: &Option<Fact>, link: u32) -> bool
    ensures { result ≡ is_of_link link first.now }
{
    match first {
        Some(fact) => fact.link == link,
        None => false,
    }
}

// The links in the order of their places, up to the first place without one.
pub(crate) fn in_order(alloc: Global, firsts: &[Option<Fact>]) -> Made<Items<u32>>
    ensures { IfOk result (λ links. links ≡ links_in_order firsts.now) }
{
    let mut links = Items::new(alloc);
    for first in firsts {
        match first {
            Some(fact) => links.push(fact.link)?,
            None => return Ok(links),
        }
    }
    Ok(links)
}
