//! Events and sets of events. A set is kept as blocks of 64 events, and contracts see the strictly rising list of its
//! members.

ghost use Rattle.std.specs.Prelude.{◌≡◌, ◌↔◌, ◌||◌, ◌&&◌, ◌+◌, ◌*◌, ◌<◌, Some, not, nat_eq, nat_le, refl, ℕ, List, [], IsTrue, IfOk, OnOk, OnErr};
ghost use Rattle.std.proofs.Common.{rules};
ghost use Rattle.csp_base.specs.Standard.{pointwise, slice_cmp, nat_list_cmp_total, texts_ties, texts_po, bytes_decides, comparing, same_Alike, find, IsStrictlyIncreasing, nat_cmp};
ghost use Rattle.csp_base.specs.Prelude.{AreBlocks, events_of, has_bit, word_at, set_writes, has, with_member, union_of, set_of, inter_of, diff_of, is_subset_of, meets_of};

use crate::members::Members;
use crate::operators::SetOp;
use crate::{Made, block_order, blocks};
use std::alloc::Global;
use std::cmp::Ordering;
use std::hash::{Hash, Hasher};
use std::marker::Model;

/// The number of an event in the script's event table.
#[derive(Clone, Copy, Debug, PartialEq, Eq, PartialOrd, Ord, Hash)]
pub struct Event(pub u32);

impl Model for Event {
    ghost use Rattle.std.specs.Prelude.{ℕ};

    ghost Value = { ℕ };

    ghost view = { λ e. e.0 };

    ghost inverse = { λ n. record { 0 = n } };
}

/// A set of events. Contracts see the list of its members, which rises strictly.
pub struct EventSet {
    blocks: Vec<(u32, u64)>,
}

impl Drop for EventSet {
    fn drop(self) {
        let EventSet { blocks } = self;
    }
}

impl Model for EventSet {
    ghost use Rattle.std.specs.Prelude.{List, ℕ};
    ghost use Rattle.csp_base.specs.Blocks.{AreBlocks, events_of};

    ghost Value = { List ℕ };

    ghost view = { λ s. events_of s.blocks.items };

    ghost invariant = { λ s. AreBlocks s.blocks.items };
}

impl EventSet {
    /// The empty set. It takes no memory yet.
    pub fn new(alloc: Global) -> Self
        ensures { result ≡ [] }
    {
        EventSet {
            blocks: Vec::new(alloc),
        }
    }

    /// The set of the given events, in any order and with doubles.
    pub fn from_events(alloc: Global, events: &[Event]) -> Made<Self>
        ensures value { IfOk result (λ made. made ≡ set_of events.now) }
        ensures members { IfOk result (λ made. (x : ℕ) → has made x ≡ has events.now x) }
        ensures rising { IfOk result IsStrictlyIncreasing }
    {
        let blocks = blocks::blocks_of_events(alloc, events)?;
        Ok(EventSet { blocks })
    }

    /// The set of the given events, which rise strictly.
    pub fn from_sorted(alloc: Global, events: &[Event]) -> Made<Self>
        requires { IsStrictlyIncreasing events.now }
        ensures { IfOk result (λ made. made ≡ events.now) }
    {
        let blocks = blocks::blocks_of_events(alloc, events)?;
        Ok(EventSet { blocks })
    }

    /// Whether there are none.
    pub fn is_empty(&self) -> bool
        ensures { IsTrue result ↔ (self.now ≡ []) }
    {
        self.blocks.as_slice().is_empty()
    }

    /// Whether the event is a member.
    pub fn contains(&self, event: Event) -> bool
        ensures member { result ≡ has self.now event }
        ensures rising { IsStrictlyIncreasing self.now }
    {
        blocks::contains(&self.blocks, event.0)
    }

    /// Whether each member is one of the other set.
    pub fn is_subset(&self, other: &EventSet) -> bool
        ensures { result ≡ is_subset_of self.now other.now }
    {
        blocks::is_subset(&self.blocks, &other.blocks)
    }

    /// Whether the sets have a member in common.
    pub fn meets(&self, other: &EventSet) -> bool
        ensures { result ≡ meets_of self.now other.now }
    {
        blocks::meets(&self.blocks, &other.blocks)
    }

    /// The least member that is not below the given event.
    pub fn first_from(&self, event: Event) -> Option<Event>
        ensures least { result ≡ find (nat_le event) self.now }
        ensures rising { IsStrictlyIncreasing self.now }
    {
        match blocks::first_from(&self.blocks, event.0) {
            Some(number) => Some(Event(number)),
            None => None,
        }
    }

    /// The members in rising order.
    pub fn iter(&self) -> Members<'_>
        ensures members { result ≡ self.now }
        ensures rising { IsStrictlyIncreasing self.now }
    {
        Members::new(&self.blocks)
    }

    /// The members of either set.
    pub fn union(&self, alloc: Global, other: &EventSet) -> Made<EventSet>
        ensures value { IfOk result (λ made. made ≡ union_of self.now other.now) }
        ensures members { IfOk result (λ made. (x : ℕ) → has made x ≡ (has self.now x || has other.now x)) }
        ensures rising { IfOk result IsStrictlyIncreasing }
    {
        let blocks = blocks::merge_blocks(alloc, SetOp::Union, &self.blocks, &other.blocks)?;
        Ok(EventSet { blocks })
    }

    /// The members of both sets.
    pub fn inter(&self, alloc: Global, other: &EventSet) -> Made<EventSet>
        ensures value { IfOk result (λ made. made ≡ inter_of self.now other.now) }
        ensures members { IfOk result (λ made. (x : ℕ) → has made x ≡ (has self.now x && has other.now x)) }
        ensures rising { IfOk result IsStrictlyIncreasing }
    {
        let blocks = blocks::merge_blocks(alloc, SetOp::Inter, &self.blocks, &other.blocks)?;
        Ok(EventSet { blocks })
    }

    /// The members of this set that are no members of the other.
    pub fn diff(&self, alloc: Global, other: &EventSet) -> Made<EventSet>
        ensures value { IfOk result (λ made. made ≡ diff_of self.now other.now) }
        ensures members { IfOk result (λ made. (x : ℕ) → has made x ≡ (has self.now x && not (has other.now x))) }
        ensures rising { IfOk result IsStrictlyIncreasing }
    {
        let blocks = blocks::merge_blocks(alloc, SetOp::Diff, &self.blocks, &other.blocks)?;
        Ok(EventSet { blocks })
    }

    /// Adds a member, where it isn't there yet. An error changes nothing.
    pub fn insert(&mut self, event: Event) -> Made<()>
        ensures ok { OnOk result (self.new ≡ with_member event self.old) }
        ensures err { OnErr result (self.new ≡ self.old) }
        ensures rising { IsStrictlyIncreasing self.new }
    {
        blocks::include(&mut self.blocks, event.0)?;
        Ok(())
    }

    /// A second set with the same members.
    pub fn try_clone(&self, alloc: Global) -> Made<EventSet>
        ensures { IfOk result (λ copy. copy ≡ self.now) }
    {
        let blocks = self.blocks.as_slice().to_vec(alloc)?;
        Ok(EventSet { blocks })
    }

    /// The blocks: they rise by number, without a zero word, and bit k of the word of block b stands for event 64 b + k.
    pub fn blocks(&self) -> &[(u32, u64)]
        ensures rising { AreBlocks result.now }
        ensures bits { (b k : ℕ) → k < 64 → has self.now (64 * b + k) ≡ has_bit (word_at result.now b) k }
        ensures events { self.now ≡ events_of result.now }
    {
        self.blocks.as_slice()
    }
}

impl PartialEq for EventSet {
    ghost eq = { pointwise nat_eq };

    ghost laws = { Prim.search (comparing, rules) };

    fn eq(&self, other: &EventSet) -> bool {
        blocks::same(&self.blocks, &other.blocks)
    }
}

impl Eq for EventSet {
    ghost laws = { Prim.search (comparing, rules) };
}

impl Ord for EventSet {
    ghost cmp = { slice_cmp nat_cmp };

    ghost total = { nat_list_cmp_total };

    ghost matches_partial_cmp = { λ xs ys. refl };

    ghost matches_eq = { texts_ties };

    /// The order of the lists of members: the first difference decides, and else the shorter is less.
    fn cmp(&self, other: &EventSet) -> Ordering {
        block_order::order(&self.blocks, &other.blocks)
    }
}

impl PartialOrd for EventSet {
    ghost partial_cmp = { λ xs ys. Some (slice_cmp nat_cmp xs ys) };

    ghost laws = { texts_po };

    fn partial_cmp(&self, other: &EventSet) -> Option<Ordering> {
        Some(self.cmp(other))
    }
}

impl Hash for EventSet {
    ghost hash_input = { set_writes };

    ghost respects_eq = { (same_Alike set_writes bytes_decides).fed };

    fn hash<H: Hasher>(&self, state: &mut H) {
        self.blocks.hash(state);
    }
}
