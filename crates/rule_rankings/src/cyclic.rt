//! The ranking of a cyclic network.

ghost use Rattle.std.specs.Prelude.{◌≡◌, ◌<◌, ◌≤◌, ◌^◌, ℕ, pos, IfOk, IsTrue, length, slice_index, max};
ghost use Rattle.csp_base.specs.Members.{has};
ghost use Rattle.design_rules.specs.Prelude.{above_all, AllKeepPlaces, NumbersRise, AreCyclicRanks};
ghost use Rattle.shape_links.specs.Links.{ends_of};
ghost use Rattle.rule_rankings.specs.CyclicRanks.{AreTops, IsGreatest, IsLap, IsRank};
ghost use Rattle.rule_rankings.specs.Rows.{IsRanked};

use crate::rows::{Ranks, larger, rank_parts};
use csp_base::{Event, EventSet, Made};
use csp_tables::Ranking;
use digraph::Heights;
use shape_links::SortedShape;
use std::alloc::Global;

// What ranks a cyclic network: the numbers of the links, and for each part the greatest of its links' numbers.
#[derive(Clone, Copy)]
struct Numbers<'a> {
    sorted: &'a SortedShape<'a>,
    numbers: &'a Heights,
    tops: &'a [u32],
}

/// The ranking with these numbers of the links.
pub fn cyclic_ranking(alloc: Global, sorted: &SortedShape<'_>, numbers: &Heights) -> Made<Ranking>
    requires count { length numbers.now ≡ length sorted.now.links }
    requires keep { AllKeepPlaces sorted.now }
    requires rise { NumbersRise sorted.now (slice_index numbers.now) }
    ensures { IfOk result (λ ranking. AreCyclicRanks sorted.now (slice_index numbers.now) ranking) }
{
    let tops = tops(alloc, sorted, numbers)?;
    let ranks = Numbers {
        sorted,
        numbers,
        tops: tops.as_slice(),
    };
    let parts = rank_parts(alloc, sorted.shape().parts(), &ranks)?;
    Ok(Ranking::new(scale(numbers.as_slice()), parts))
}

// For each part the greatest number of its links.
fn tops(alloc: Global, sorted: &SortedShape<'_>, numbers: &Heights) -> Made<Vec<u32>>
    requires { length numbers.now ≡ length sorted.now.links }
    ensures { IfOk result (λ tops.
        AreTops sorted.now (slice_index numbers.now) (length sorted.now.parts) tops.items) }
{
    let mut tops = Vec::new(alloc);
    for part in 0..sorted.shape().parts().len() {
        tops.push(top(sorted, numbers, part as u32))?;
    }
    Ok(tops)
}

// The greatest number of the part's links.
fn top(sorted: &SortedShape<'_>, numbers: &Heights, part: u32) -> u32
    requires count { length numbers.now ≡ length sorted.now.links }
    requires part { part < length sorted.now.parts }
    ensures { IsGreatest (slice_index numbers.now) (ends_of sorted.now part) result }
{
    let component = sorted.component(part);
    greatest(numbers, component.links())
}

// The greatest number of the links.
fn greatest(numbers: &Heights, links: &[u32]) -> u32
    requires { (l : ℕ) → IsTrue (has links.now l) → l < length numbers.now }
    ensures { IsGreatest (slice_index numbers.now) links.now result }
{
    let mut top = 0;
    for link in links {
        top = larger(numbers.of(*link), top);
    }
    top
}

// One more than the greatest number, 0 if there is none.
fn scale(numbers: &[u32]) -> i64
    ensures { result ≡ pos (above_all (slice_index numbers.now) (length numbers.now)) }
{
    let mut above: u64 = 0;
    for number in numbers {
        above = wider(u64::from(*number) + 1, above);
    }
    with_sign(above)
}

// The greater of the two.
fn wider(a: u64, b: u64) -> u64
    ensures { result ≡ max a b }
{
    if a < b { b } else { a }
}

// The number with a sign.
fn with_sign(number: u64) -> i64
    requires { number ≤ 2 ^ 32 }
    ensures { result ≡ pos number }
{
    number as i64
}

impl<'a> Ranks for Numbers<'a> {
    ghost can_rank = { λ n i. (length n.numbers.now ≡ length n.sorted.now.links) × (i < length n.tops.now) };

    ghost is_rank = { λ n _. IsRanked n.sorted.now.vocabulary (IsRank n.sorted.now (slice_index n.numbers.now)) };

    ghost is_lap = { λ n i. IsLap n.sorted.now (slice_index n.numbers.now) (slice_index n.tops.now i) };

    // The number of the link on which the acceptance lies.
    fn rank(&self, _part: u32, set: &EventSet) -> i64 {
        if !set.is_subset(self.sorted.shape().vocabulary()) {
            return 0;
        }
        let Some(event) = set.first_from(Event(0)) else {
            return 0;
        };
        let Some(link) = self.sorted.owner(event) else {
            return 0;
        };
        i64::from(self.numbers.of(link))
    }

    // 1 where the event lies on the link with the greatest number.
    fn lap(&self, part: u32, event: Event) -> u8 {
        let _form = self.sorted.shape();
        match self.sorted.owner(event) {
            Some(link) => u8::from(self.numbers.of(link) == self.tops[part as usize]),
            None => 0,
        }
    }
}
