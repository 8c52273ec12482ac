//! The rule as a whole.

ghost use Rattle.std.specs.Prelude.{◌≡◌, ◌<◌, ℕ, IfErr, IfOk, OnOk, length, slice_index};
ghost use Rattle.csp_base.specs.Prelude.{Tells};
ghost use Rattle.csp_tables.specs.Prelude.{TripleDisjoint, alphabets_of, IsWellFormed};
ghost use Rattle.design_rules.specs.Prelude.{AllKeepPlaces, HasWholeEnd, IsCyclic, NumbersRise, AreChainNumbers, IsCyclicRanking, BreaksCyclic};

use crate::numbers::numbers;
use csp_base::Stop;
use csp_tables::{Ranking, Shape};
use cyclic_conditions::{check_ends, link_orders};
use design_rules::RuleFault;
use digraph::Heights;
use rule_rankings::cyclic_ranking;
use shape_links::SortedShape;
use std::alloc::Global;

/// The ranking of a cyclic network, or what breaks the rule.
pub fn cyclic(alloc: Global, shape: &Shape) -> Result<Ranking, Stop<RuleFault>>
    requires form { IsWellFormed shape.now }
    requires apart { TripleDisjoint (alphabets_of shape.now.parts) }
    ensures cyclic { OnOk result (IsCyclic shape.now) }
    ensures ranking { IfOk result (λ ranking. IsCyclicRanking shape.now ranking) }
    ensures fault { IfErr result (Tells (BreaksCyclic shape.now)) }
{
    let sorted = SortedShape::new(alloc, shape)?;
    ranking_of(alloc, &sorted)
}

// The same of a shape that is sorted.
fn ranking_of(alloc: Global, sorted: &SortedShape<'_>) -> Result<Ranking, Stop<RuleFault>>
    ensures cyclic { OnOk result (IsCyclic sorted.now) }
    ensures ranking { IfOk result (λ ranking. IsCyclicRanking sorted.now ranking) }
    ensures fault { IfErr result (Tells (BreaksCyclic sorted.now)) }
{
    let numbers = checked_numbers(alloc, sorted)?;
    let ranking = cyclic_ranking(alloc, sorted, &numbers)?;
    Ok(ranking)
}

// The numbers of the links, where the rule holds, and else what breaks it.
fn checked_numbers(alloc: Global, sorted: &SortedShape<'_>) -> Result<Heights, Stop<RuleFault>>
    ensures keep { OnOk result (AllKeepPlaces sorted.now) }
    ensures count { IfOk result (λ numbers. length numbers ≡ length sorted.now.links) }
    ensures chains { IfOk result (λ numbers. AreChainNumbers sorted.now (slice_index numbers)) }
    ensures rise { IfOk result (λ numbers. NumbersRise sorted.now (slice_index numbers)) }
    ensures whole { OnOk result ((l : ℕ) → l < length sorted.now.links → HasWholeEnd sorted.now l) }
    ensures fault { IfErr result (Tells (BreaksCyclic sorted.now)) }
{
    let orders = link_orders(alloc, sorted)?;
    let numbers = numbers(alloc, sorted, &orders)?;
    check_ends(alloc, sorted)?;
    Ok(numbers)
}
