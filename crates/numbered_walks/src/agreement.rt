//! Which events all of their owners offer.

ghost use Rattle.std.specs.Prelude.{◌≡◌, ◌+◌, ◌-◌, ◌≤◌, ◌<◌, ℕ, IfOk, IsTrue, OnOk, length, map, replicate, slice_index, slice_set};
ghost use Rattle.dl_limits.specs.declared.TheConstants.{MOST_COMPONENTS};
ghost use Rattle.csp_base.specs.Members.{has};
ghost use Rattle.numbered_walks.specs.Prelude.{IsAgreement, is_agreed, offers_of, owners_of, bit};

use crate::marks::CountedMarks;
use containers::Items;
use csp_base::{Event, EventSet, Made};
use std::alloc::Global;

/// So many blocks of events of two sets are gone through event by event.
const FEW_BLOCKS: usize = 2;

/// For each event how many components have it, and how many of them offer it now; marked are the events that all of them offer.
#[derive(Drop)]
pub(crate) struct Agreement {
    owners: Vec<usize>,
    offering: Vec<usize>,
    agreed: CountedMarks,
}

// How many owners each event has.
fn owner_counts(alloc: Global, rows: &[Items<u32>]) -> Made<Vec<usize>>
    ensures { IfOk result (λ counts. counts.items ≡ map length rows.now) }
{
    let mut counts = Vec::new(alloc);
    for row in rows {
        counts.push(row.len())?;
    }
    Ok(counts)
}

/// Nothing is offered of the events that have these rows of owners.
pub(crate) fn no_offers(alloc: Global, rows: &[Items<u32>]) -> Made<Agreement>
    ensures form { IfOk result IsAgreement }
    ensures owners { IfOk result (λ made. made.owners.items ≡ map length rows.now) }
    ensures offering { IfOk result (λ made. made.offering.items ≡ replicate (length rows.now) 0) }
{
    let owners = owner_counts(alloc, rows)?;
    let offering = vec![in alloc; 0; rows.len()]?;
    let agreed = CountedMarks::new(alloc, rows.len())?;
    Ok(Agreement {
        owners,
        offering,
        agreed,
    })
}

/// The events that all of their owners offer.
pub(crate) fn agreed_events(agreement: &Agreement) -> &CountedMarks
    ensures { result.now ≡ agreement.now.agreed }
{
    &agreement.agreed
}

// Marks an event again, after what is counted of it has changed.
fn mark(agreement: &mut Agreement, place: usize)
    requires within { place < length agreement.old.owners.items }
    requires offering { length agreement.old.offering.items ≡ length agreement.old.owners.items }
    requires agreed { length agreement.old.agreed ≡ length agreement.old.owners.items }
    ensures { agreement.new ≡ record agreement.old {
      agreed = slice_set agreement.old.agreed place
          (is_agreed (owners_of agreement.old place) (offers_of agreement.old place));
    } }
{
    let owners = agreement.owners[place];
    let agreed = agreement.offering[place] == owners && owners != 0;
    agreement.agreed.set(place, agreed);
}

// One component more offers the event.
fn offer(agreement: &mut Agreement, event: Event)
    requires form { IsAgreement agreement.old }
    requires within { event < length agreement.old.owners.items }
    requires room { offers_of agreement.old event < MOST_COMPONENTS }
    ensures form { IsAgreement agreement.new }
    ensures owners { agreement.new.owners.items ≡ agreement.old.owners.items }
    ensures offering { agreement.new.offering.items
        ≡ slice_set agreement.old.offering.items event (offers_of agreement.old event + 1) }
{
    let place = event.0 as usize;
    agreement.offering[place] += 1;
    mark(agreement, place);
}

// One component less offers the event.
fn withdraw(agreement: &mut Agreement, event: Event)
    requires form { IsAgreement agreement.old }
    requires some { 1 ≤ offers_of agreement.old event }
    ensures form { IsAgreement agreement.new }
    ensures owners { agreement.new.owners.items ≡ agreement.old.owners.items }
    ensures offering { agreement.new.offering.items
        ≡ slice_set agreement.old.offering.items event (offers_of agreement.old event - 1) }
{
    let place = event.0 as usize;
    agreement.offering[place] -= 1;
    mark(agreement, place);
}

/// The component offers the events of `new` in place of those of `old`. Only the events of one of the two are counted, where there are many.
pub(crate) fn exchange(
    alloc: Global,
    agreement: &mut Agreement,
    old: &EventSet,
    new: &EventSet,
) -> Made<()>
    requires form { IsAgreement agreement.old }
    requires within { (e : ℕ) → IsTrue (has new.now e) → e < length agreement.old.owners.items }
    requires some { (e : ℕ) → bit (has old.now e) ≤ offers_of agreement.old e }
    requires room { (e : ℕ) → offers_of agreement.old e + bit (has new.now e) ≤ MOST_COMPONENTS + bit (has old.now e) }
    ensures form { OnOk result (IsAgreement agreement.new) }
    ensures owners { OnOk result (agreement.new.owners.items ≡ agreement.old.owners.items) }
    ensures offering { OnOk result ((e : ℕ) → offers_of agreement.new e + bit (has old.now e)
        ≡ offers_of agreement.old e + bit (has new.now e)) }
{
    if old == new {
        return Ok(());
    }
    if old.blocks().len() + new.blocks().len() <= FEW_BLOCKS {
        withdraw_all(agreement, old);
        offer_all(agreement, new);
        return Ok(());
    }
    let gone = old.diff(alloc, new)?;
    let come = new.diff(alloc, old)?;
    withdraw_all(agreement, &gone);
    offer_all(agreement, &come);
    Ok(())
}

/// Each of the events is offered by one component more.
pub(crate) fn offer_all(agreement: &mut Agreement, events: &EventSet)
    requires form { IsAgreement agreement.old }
    requires within { (e : ℕ) → IsTrue (has events.now e) → e < length agreement.old.owners.items }
    requires room { (e : ℕ) → offers_of agreement.old e + bit (has events.now e) ≤ MOST_COMPONENTS }
    ensures form { IsAgreement agreement.new }
    ensures owners { agreement.new.owners.items ≡ agreement.old.owners.items }
    ensures offering { (e : ℕ) → offers_of agreement.new e ≡ offers_of agreement.old e + bit (has events.now e) }
{
    for event in events.iter() {
        offer(agreement, event);
    }
}

// Each of the events is offered by one component less.
fn withdraw_all(agreement: &mut Agreement, events: &EventSet)
    requires form { IsAgreement agreement.old }
    requires some { (e : ℕ) → bit (has events.now e) ≤ offers_of agreement.old e }
    ensures form { IsAgreement agreement.new }
    ensures owners { agreement.new.owners.items ≡ agreement.old.owners.items }
    ensures offering { (e : ℕ) → offers_of agreement.new e + bit (has events.now e) ≡ offers_of agreement.old e }
{
    for event in events.iter() {
        withdraw(agreement, event);
    }
}
