//! Where the components stand, and what they can do there.

ghost use Rattle.std.specs.Prelude.{◌≡◌, ◌+◌, ◌≤◌, ◌<◌, ◌^◌, ◌↔◌, ℕ, false, IfNone, IfOk, IfSome, IsTrue, OnOk, Some, length, slice_get, slice_index, slice_index_or, slice_set};
ghost use Rattle.acceptances.specs.OfferTests.{is_unstable, can_do};
ghost use Rattle.numbered_walks.specs.Prelude.{AreOwnerRows, IsAgreement, IsStanding, component_at, offer_count, offers_of, owner_count, owner_marks, owners_of, mark_count, marked, bit, AllCan, Can, Has, OwnsItsSteps, first_terms, place_among, AllGoOn, Does, GoesOn, options, Chooses, HasNone};
ghost use Rattle.csp_tables.specs.Label.Label.{silent, visible};
ghost use Rattle.dl_limits.specs.declared.TheConstants.{MOST_COMPONENTS};

use crate::agreement::{Agreement, agreed_events, exchange, no_offers, offer_all};
use crate::draws::Drawn;
use crate::marks::CountedMarks;
use crate::mover::Mover;
use crate::moves::Move;
use crate::numbers::place_among;
use containers::Items;
use csp_base::{Event, Made};
use std::alloc::Global;

/// The term of each component, the number that was drawn last, which components have a silent step, and which events are offered by all of their owners.
#[derive(Drop)]
pub(crate) struct Standing {
    terms: Vec<u32>,
    drawn: u32,
    restless: CountedMarks,
    agreement: Agreement,
}

// Marks whether a component has a silent step at its first term, and counts what it offers there.
fn enter(
    restless: &mut CountedMarks,
    agreement: &mut Agreement,
    mover: &Mover<'_>,
    place: usize,
    term: u32,
)
    requires place { place < length restless.old }
    requires term { term < mover.now.table.count }
    requires form { IsAgreement agreement.old }
    requires within { (e : ℕ) → IsTrue (can_do mover.now.table term e) → e < length agreement.old.owners.items }
    requires room { (e : ℕ) → offers_of agreement.old e + bit (can_do mover.now.table term e) ≤ MOST_COMPONENTS }
    ensures restless { restless.new ≡ slice_set restless.old place (is_unstable mover.now.table term) }
    ensures form { IsAgreement agreement.new }
    ensures owners { agreement.new.owners.items ≡ agreement.old.owners.items }
    ensures offering { (e : ℕ) → offers_of agreement.new e
        ≡ offers_of agreement.old e + bit (can_do mover.now.table term e) }
{
    restless.set(place, mover.is_restless(term));
    offer_all(agreement, mover.offers(term));
}

// Each component enters its first term.
fn enter_all(restless: &mut CountedMarks, agreement: &mut Agreement, movers: &[Mover<'_>])
    requires few { length movers.now ≤ MOST_COMPONENTS }
    requires form { IsAgreement agreement.old }
    requires none { (e : ℕ) → offers_of agreement.old e ≡ 0 }
    requires owners { (e : ℕ) → owners_of agreement.old e ≡ owner_count e movers.now }
    requires marks { length restless.old ≡ length movers.now }
    ensures form { IsAgreement agreement.new }
    ensures owners { agreement.new.owners.items ≡ agreement.old.owners.items }
    ensures offering { (e : ℕ) → offers_of agreement.new e ≡ offer_count e movers.now (first_terms movers.now) }
    ensures marks { length restless.new ≡ length movers.now }
    ensures restless { (i : ℕ) → i < length movers.now → slice_index_or restless.new i false
        ≡ is_unstable (component_at movers.now i).table 0 }
    ensures within { (i : ℕ) → i < length movers.now → 0 < (component_at movers.now i).table.count }
    ensures own { (i : ℕ) → i < length movers.now → OwnsItsSteps (component_at movers.now i).alphabet
        (component_at movers.now i).table }
{
    for (place, mover) in movers.iter().enumerate() {
        let _alphabet = mover.alphabet();
        enter(restless, agreement, mover, place, 0);
    }
}

/// Each component at its first term.
pub(crate) fn first_standing(
    alloc: Global,
    movers: &[Mover<'_>],
    owners: &[Items<u32>],
    drawn: u32,
) -> Made<Standing>
    requires few { length movers.now ≤ MOST_COMPONENTS }
    requires owners { AreOwnerRows movers.now owners.now }
    requires small { length owners.now ≤ 2 ^ 32 }
    ensures form { IfOk result (IsStanding movers.now) }
    ensures first { IfOk result (λ made. made.terms.items ≡ first_terms movers.now) }
    ensures drawn { IfOk result (λ made. made.drawn ≡ drawn) }
{
    let terms = vec![in alloc; 0; movers.len()]?;
    let mut restless = CountedMarks::new(alloc, movers.len())?;
    let mut agreement = no_offers(alloc, owners)?;
    enter_all(&mut restless, &mut agreement, movers);
    Ok(Standing {
        terms,
        drawn,
        restless,
        agreement,
    })
}

// The option in a place among those that there are.
fn option_at(restless: &CountedMarks, agreed: &CountedMarks, place: usize) -> Move
    requires place { place < mark_count restless.now + mark_count agreed.now }
    requires few { length restless.now ≤ MOST_COMPONENTS }
    requires small { length agreed.now ≤ 2 ^ 32 }
    ensures { slice_get (options restless.now agreed.now) place ≡ Some result }
{
    let silent = restless.count();
    if place < silent {
        Move::Silent(restless.nth(place) as u32)
    } else {
        Move::Event(Event(agreed.nth(place - silent) as u32))
    }
}

// How many options there are.
fn option_count(standing: &Standing) -> usize
    ensures { result ≡ length (options standing.now.restless standing.now.agreement.agreed) }
{
    standing.restless.count() + agreed_events(&standing.agreement).count()
}

/// Whether there is no option.
pub(crate) fn is_stuck(movers: &[Mover<'_>], standing: &Standing) -> bool
    requires { IsStanding movers.now standing.now }
    ensures { IsTrue result ↔ HasNone (Has movers.now standing.now.terms.items) }
{
    option_count(standing) == 0
}

/// The option that a number chooses, if there is one.
pub(crate) fn choose(movers: &[Mover<'_>], standing: &Standing, number: u32) -> Option<Move>
    requires form { IsStanding movers.now standing.now }
    requires few { length movers.now ≤ MOST_COMPONENTS }
    ensures chosen { IfSome result (Chooses (Has movers.now standing.now.terms.items) number) }
    ensures has { IfSome result (Has movers.now standing.now.terms.items) }
    ensures none { IfNone result (HasNone (Has movers.now standing.now.terms.items)) }
{
    let count = option_count(standing);
    if count == 0 {
        return None;
    }
    let agreed = agreed_events(&standing.agreement);
    Some(option_at(&standing.restless, agreed, place_among(number, count)))
}

// A component goes to the term that is drawn.
fn go_to(
    alloc: Global,
    movers: &[Mover<'_>],
    standing: &mut Standing,
    place: usize,
    drawn: Drawn,
) -> Made<()>
    requires form { IsStanding movers.now standing.old }
    requires few { length movers.now ≤ MOST_COMPONENTS }
    requires place { place < length movers.now }
    requires to { drawn.to < (component_at movers.now place).table.count }
    ensures form { OnOk result (IsStanding movers.now standing.new) }
    ensures moved { OnOk result (standing.new.terms.items ≡ slice_set standing.old.terms.items place drawn.to) }
    ensures drawn { OnOk result (standing.new.drawn ≡ drawn.number) }
{
    let mover = &movers[place];
    let from = standing.terms[place];
    exchange(
        alloc,
        &mut standing.agreement,
        mover.offers(from),
        mover.offers(drawn.to),
    )?;
    standing.restless.set(place, mover.is_restless(drawn.to));
    standing.terms[place] = drawn.to;
    standing.drawn = drawn.number;
    Ok(())
}

// One component moves by a silent step.
fn move_silently(
    alloc: Global,
    movers: &[Mover<'_>],
    standing: &mut Standing,
    place: usize,
) -> Made<()>
    requires form { IsStanding movers.now standing.old }
    requires few { length movers.now ≤ MOST_COMPONENTS }
    requires place { place < length movers.now }
    requires can { Can silent (component_at movers.now place) (slice_index standing.old.terms.items place) }
    ensures form { OnOk result (IsStanding movers.now standing.new) }
    ensures does { OnOk result (Does movers.now place silent standing.old standing.new) }
{
    let drawn = movers[place].draw_silently(standing.terms[place], standing.drawn);
    go_to(alloc, movers, standing, place, drawn)
}

// One component does an event.
fn do_event(
    alloc: Global,
    movers: &[Mover<'_>],
    standing: &mut Standing,
    place: usize,
    event: Event,
) -> Made<()>
    requires form { IsStanding movers.now standing.old }
    requires few { length movers.now ≤ MOST_COMPONENTS }
    requires place { place < length movers.now }
    requires can { Can (visible event) (component_at movers.now place) (slice_index standing.old.terms.items place) }
    ensures form { OnOk result (IsStanding movers.now standing.new) }
    ensures does { OnOk result (Does movers.now place (visible event) standing.old standing.new) }
{
    let drawn = movers[place].draw_by(standing.terms[place], event, standing.drawn);
    go_to(alloc, movers, standing, place, drawn)
}

// Each owner of an event does it.
fn do_together(
    alloc: Global,
    movers: &[Mover<'_>],
    owners: &[u32],
    standing: &mut Standing,
    event: Event,
) -> Made<()>
    requires form { IsStanding movers.now standing.old }
    requires few { length movers.now ≤ MOST_COMPONENTS }
    requires owners { owners.now ≡ marked (owner_marks event movers.now) }
    requires can { AllCan event movers.now standing.old.terms.items }
    ensures form { OnOk result (IsStanding movers.now standing.new) }
    ensures gone { OnOk result (AllGoOn movers.now (visible event) owners.now standing.old standing.new) }
{
    for place in owners {
        do_event(alloc, movers, standing, *place as usize, event)?;
    }
    Ok(())
}

/// Takes an option.
pub(crate) fn take(
    alloc: Global,
    movers: &[Mover<'_>],
    owners: &[Items<u32>],
    standing: &mut Standing,
    option: &Move,
) -> Made<()>
    requires form { IsStanding movers.now standing.old }
    requires few { length movers.now ≤ MOST_COMPONENTS }
    requires owners { AreOwnerRows movers.now owners.now }
    requires has { Has movers.now standing.old.terms.items option.now }
    ensures form { OnOk result (IsStanding movers.now standing.new) }
    ensures goes { OnOk result (GoesOn movers.now option.now standing.old standing.new) }
{
    match option {
        Move::Silent(place) => move_silently(alloc, movers, standing, *place as usize),
        Move::Event(event) => do_together(
            alloc,
            movers,
            owners[event.0 as usize].as_slice(),
            standing,
            *event,
        ),
    }
}
