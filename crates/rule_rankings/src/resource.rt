//! The ranking of a network of users and resources.

ghost use Rattle.std.specs.Prelude.{◌≡◌, ◌<◌, ◌≤◌, ◌⊎◌, ◌+◌, ◌-◌, ◌*◌, if◌then◌else◌, ℕ, true, pos, min, All, IfOk, length};
ghost use Rattle.dl_limits.specs.declared.TheConstants.{MOST_COMPONENTS};
ghost use Rattle.csp_tables.specs.Prelude.{use_at};
ghost use Rattle.design_rules.specs.Prelude.{KeepUses, AreResourceRanks, top_number};
ghost use Rattle.shape_links.specs.Acquired.{is_acquired_by};
ghost use Rattle.rule_rankings.specs.ResourceRanks.{CanRank, HaveTop, IsLeastAcquired, IsRank, number_by};
ghost use Rattle.rule_rankings.specs.Rows.{IsRanked, NoLap};
ghost use Rattle.shape_links.specs.Setting.{KeepKinds};

use crate::rows::{Ranks, larger, rank_parts};
use csp_base::{Event, EventSet, Made};
use csp_tables::Ranking;
use digraph::Heights;
use shape_links::{Setting, acquired_resource};
use std::alloc::Global;

// What ranks users and resources: the heights of the resources, and the greatest number of one.
#[derive(Clone, Copy)]
struct Numbers<'a> {
    setting: &'a Setting<'a>,
    heights: &'a Heights,
    top: u32,
}

/// The ranking with the numbers that these heights of the resources give.
pub fn resource_ranking(alloc: Global, setting: &Setting<'_>, heights: &Heights) -> Made<Ranking>
    requires keep { KeepUses setting.now.shape setting.now.uses }
    requires count { length heights.now ≡ length setting.now.shape.parts }
    requires below { All (λ height. height < length setting.now.shape.parts) heights.now }
    ensures { IfOk result (λ ranking. AreResourceRanks setting.now.shape setting.now.uses (number_by heights.now)
        (top_number setting.now.uses (number_by heights.now) (length setting.now.shape.parts)) ranking) }
{
    let ranks = Numbers {
        setting,
        heights,
        top: top(setting, heights),
    };
    let parts = rank_parts(alloc, setting.shape().parts(), &ranks)?;
    Ok(Ranking::new(0, parts))
}

// The greatest number of a resource, 0 if there is none.
fn top(setting: &Setting<'_>, heights: &Heights) -> u32
    requires count { length heights.now ≡ length setting.now.shape.parts }
    requires below { All (λ height. height < length setting.now.shape.parts) heights.now }
    ensures { HaveTop setting.now heights.now result }
{
    let mut top = 0;
    for part in 0..setting.count() {
        let number = number_if(setting, heights, part);
        top = larger(number, top);
    }
    top
}

// The number of a resource, 0 for a user.
fn number_if(setting: &Setting<'_>, heights: &Heights, part: u32) -> u32
    requires part { part < length setting.now.shape.parts }
    requires count { length heights.now ≡ length setting.now.shape.parts }
    requires small { number_by heights.now part ≤ MOST_COMPONENTS }
    ensures { result ≡ (if (use_at setting.now.uses part).resource then number_by heights.now part else 0) }
{
    if setting.uses(part).is_resource() {
        return number(heights, part);
    }
    0
}

// The number of a part.
fn number(heights: &Heights, part: u32) -> u32
    requires part { part < length heights.now }
    requires small { number_by heights.now part ≤ MOST_COMPONENTS }
    ensures { result ≡ number_by heights.now part }
{
    heights.of(part) + 1
}

impl<'a> Ranks for Numbers<'a> {
    ghost can_rank = { λ n. CanRank n.setting.now n.heights.now n.top };

    ghost is_rank = { λ n i. IsRanked n.setting.now.shape.vocabulary
        (IsRank n.setting.now (number_by n.heights.now) n.top i) };

    ghost is_lap = { λ _. NoLap };

    fn rank(&self, part: u32, set: &EventSet) -> i64 {
        if !set.is_subset(self.setting.shape().vocabulary()) {
            return 0;
        }
        let Some(event) = set.first_from(Event(0)) else {
            return 0;
        };
        let uses = self.setting.uses(part);
        if !uses.is_resource() {
            return user_rank(self.top, least_acquired(self, set));
        }
        if uses.acquire().contains(event) {
            return rank(self.top, 2);
        }
        rank(self.top - number(self.heights, part), 1)
    }

    fn lap(&self, _part: u32, _event: Event) -> u8 {
        0
    }
}

// The rank of a user that acquires this least number, 0 where it acquires none.
fn user_rank(top: u32, least: u32) -> i64
    requires { top ≤ MOST_COMPONENTS }
    ensures some { least ≤ top → result ≡ pos (2 * (top - least) + 2) }
    ensures none { top < least → result ≡ pos 0 }
{
    if top < least {
        return 0;
    }
    rank(top - least, 2)
}

// Twice the height, and more.
fn rank(height: u32, more: u32) -> i64
    requires height { height ≤ MOST_COMPONENTS }
    requires more { more ≤ 2 }
    ensures { result ≡ pos (2 * height + more) }
{
    i64::from(2 * height + more)
}

// The least number of a resource that the set acquires, one more than the greatest number if there is none.
fn least_acquired(numbers: &Numbers<'_>, set: &EventSet) -> u32
    requires kinds { KeepKinds numbers.now.setting.now }
    requires top { HaveTop numbers.now.setting.now numbers.now.heights.now numbers.now.top }
    ensures { IsLeastAcquired numbers.now.setting.now (number_by numbers.now.heights.now) numbers.now.top
        set.now result }
{
    let mut least = numbers.top + 1;
    for event in set.iter() {
        least = with_event(numbers.setting, numbers.heights, least, event);
    }
    least
}

// The smaller of the number and that of the resource that the event acquires.
fn with_event(setting: &Setting<'_>, heights: &Heights, least: u32, event: Event) -> u32
    requires kinds { KeepKinds setting.now }
    requires count { length heights.now ≡ length setting.now.shape.parts }
    requires small { (j : ℕ) → number_by heights.now j ≤ MOST_COMPONENTS }
    ensures less { result ≤ least }
    ensures below { (j : ℕ) → is_acquired_by setting.now j event ≡ true → result ≤ number_by heights.now j }
    ensures attained { (result ≡ least) ⊎ ((j : ℕ) × (j < length setting.now.shape.parts)
        × (is_acquired_by setting.now j event ≡ true) × (number_by heights.now j ≡ result)) }
{
    let Some(resource) = acquired_resource(setting, event) else {
        return least;
    };
    smaller(number(heights, resource), least)
}

// The smaller of the two.
fn smaller(a: u32, b: u32) -> u32
    ensures { result ≡ min a b }
{
    if a < b { a } else { b }
}
