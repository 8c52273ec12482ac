//! What each term of a table offers, and the minimal offers of some terms.

ghost use Rattle.std.specs.Prelude.{◌≡◌, ◌<◌, ℕ, List, [], true, false, length, replicate, slice_index_or, slice_set, All, IsTrue, IfOk, OnOk};
ghost use Rattle.csp_base.specs.Standard.{IsStrictlyIncreasing, IsStrictlySortedBy, slice_cmp, nat_cmp};
ghost use Rattle.csp_base.specs.Events.{has, with_member};
ghost use Rattle.csp_tables.specs.Prelude.{RawStep, Stable, IsMinimalOffer, OffersAcceptance, IsListed};
ghost use Rattle.acceptances.specs.OfferTests.{AreMarks, AreOffers, offers_at};

use crate::least::{push_unless, sorted_least};
use csp_base::{Event, EventSet, Made};
use csp_tables::RawTable;
use std::alloc::Global;
use std::marker::Model;

/// What each term of a table offers, prepared once. Contracts see it as the table.
#[derive(Drop)]
pub struct Offers<'a> {
    table: &'a RawTable,
    unstable: Vec<bool>,
    sets: Vec<EventSet>,
}

impl<'a> Model for Offers<'a> {
    ghost use Rattle.csp_tables.specs.RawTable.{RawTable as RawSteps};
    ghost use Rattle.acceptances.specs.OfferTests.{AreMarks, AreOffers};

    ghost Value = { RawSteps };

    ghost view = { λ o. o.table.now };

    ghost invariant = { λ o. AreMarks o.table.now o.unstable.items × AreOffers o.table.now o.sets.items };
}

impl<'a> Offers<'a> {
    /// Looks at each step of the table once.
    pub fn new(alloc: Global, table: &'a RawTable) -> Made<Offers<'a>>
        ensures { IfOk result (λ offers. offers ≡ table.now) }
    {
        let unstable = unstable_marks(alloc, table)?;
        let sets = event_sets(alloc, table)?;
        Ok(Offers {
            table,
            unstable,
            sets,
        })
    }

    /// Of the sets of events that the stable ones among the terms offer, those that contain no smaller one, in the order
    /// of lists.
    ///
    /// It takes no time for other terms than these.
    pub fn minimal(&self, alloc: Global, terms: &[u32]) -> Made<Vec<EventSet>>
        requires { All (λ n. n < self.now.count) terms.now }
        ensures sound { IfOk result (λ sets. All (IsMinimalOffer self.now terms.now) sets.items) }
        ensures complete { IfOk result (λ sets. (M : List ℕ) → IsMinimalOffer self.now terms.now M
            → IsListed sets.items M) }

        // Each stable term among them offers every event of one of the sets.
        ensures covered { IfOk result (λ sets. (n : ℕ) → IsTrue (has terms.now n) → Stable (RawStep self.now) n
            → OffersAcceptance (RawStep self.now) n sets.items) }
        ensures rising { IfOk result (λ sets. All IsStrictlyIncreasing sets.items) }
        ensures order { IfOk result (λ sets. IsStrictlySortedBy (slice_cmp nat_cmp) sets.items) }
    {
        let offers = offers_of(alloc, &self.unstable, &self.sets, terms)?;
        sorted_least(alloc, offers)
    }
}

// A mark at each term that has a silent step.
fn unstable_marks(alloc: Global, table: &RawTable) -> Made<Vec<bool>>
    ensures { IfOk result (λ marks. AreMarks table.now marks.items) }
{
    let mut marks = vec![in alloc; false; table.count() as usize]?;
    for (from, _) in table.silent() {
        marks[*from as usize] = true;
    }
    Ok(marks)
}

/// For each term the set of the events of its steps.
pub fn event_sets(alloc: Global, table: &RawTable) -> Made<Vec<EventSet>>
    ensures { IfOk result (λ sets. AreOffers table.now sets.items) }
{
    let mut sets = empty_sets(alloc, table.count())?;
    for step in table.steps() {
        insert_at(&mut sets, step.0, step.1)?;
    }
    Ok(sets)
}

// As many empty sets as `count` says.
fn empty_sets(alloc: Global, count: u32) -> Made<Vec<EventSet>>
    ensures { IfOk result (λ sets. sets.items ≡ replicate count []) }
{
    let mut sets = Vec::new(alloc);
    for _ in 0..count {
        sets.push(EventSet::new(alloc))?;
    }
    Ok(sets)
}

// Adds an event to the set in a place.
fn insert_at(sets: &mut Vec<EventSet>, place: u32, event: Event) -> Made<()>
    requires { place < length sets.old.items }
    ensures ok { OnOk result (sets.new.items ≡ slice_set sets.old.items place
        (with_member event (slice_index_or sets.old.items place []))) }
{
    sets[place as usize].insert(event)?;
    Ok(())
}

// The sets of those terms that have no mark.
fn offers_of(
    alloc: Global,
    unstable: &[bool],
    sets: &[EventSet],
    terms: &[u32],
) -> Made<Vec<EventSet>>
    requires marks { All (λ n. n < length unstable.now) terms.now }
    requires sets { All (λ n. n < length sets.now) terms.now }
    ensures { IfOk result (λ made. made.items ≡ offers_at unstable.now sets.now terms.now) }
{
    let mut made = Vec::new(alloc);
    for n in terms {
        push_unless(alloc, &mut made, &sets[*n as usize], unstable[*n as usize])?;
    }
    Ok(made)
}
