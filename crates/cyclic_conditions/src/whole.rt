//! Whether each link has an end that accepts all of its events wherever it accepts some.

ghost use Rattle.std.specs.Prelude.{◌<◌, ℕ, IfErr, OnOk, length};
ghost use Rattle.csp_base.specs.Prelude.{Tells};
ghost use Rattle.design_rules.specs.Prelude.{AllKeepPlaces, HasWholeEnd, BreaksCyclic};
ghost use Rattle.design_rules.specs.Cyclic.{CanBeNumbered};
ghost use Rattle.cyclic_conditions.specs.Shorts.{AreAllShorts};
ghost use Rattle.cyclic_conditions.specs.Told.{TellsFirst};

use crate::shorts::{Shorts, find_shorts};
use csp_base::Stop;
use design_rules::RuleFault;
use observed_runs::run_to_node;
use shape_links::SortedShape;
use std::alloc::Global;

/// Succeeds where each link has a whole end, and else tells the first that has none, with a run at either end to the first
/// node that falls short.
pub fn check_ends(alloc: Global, sorted: &SortedShape<'_>) -> Result<(), Stop<RuleFault>>
    requires keep { AllKeepPlaces sorted.now }
    requires numbered { CanBeNumbered sorted.now }
    ensures whole { OnOk result ((l : ℕ) → l < length sorted.now.links → HasWholeEnd sorted.now l) }
    ensures fault { IfErr result (Tells (BreaksCyclic sorted.now)) }
    ensures first { IfErr result (Tells (TellsFirst sorted.now)) }
{
    let shorts = find_shorts(alloc, sorted)?;
    for link in 0..sorted.shape().links().len() {
        check_link(alloc, sorted, link as u32, &shorts)?;
    }
    Ok(())
}

// Tells the link, if both ends fall short.
fn check_link(
    alloc: Global,
    sorted: &SortedShape<'_>,
    link: u32,
    shorts: &Shorts,
) -> Result<(), Stop<RuleFault>>
    requires link { link < length sorted.now.links }
    requires keep { AllKeepPlaces sorted.now }
    requires numbered { CanBeNumbered sorted.now }
    requires first { (m : ℕ) → m < link → HasWholeEnd sorted.now m }
    requires shorts { AreAllShorts sorted.now shorts.now }
    ensures whole { OnOk result (HasWholeEnd sorted.now link) }
    ensures fault { IfErr result (Tells (BreaksCyclic sorted.now)) }
    ensures first { IfErr result (Tells (TellsFirst sorted.now)) }
{
    let Some(left_node) = shorts.left[link as usize] else {
        return Ok(());
    };
    let Some(right_node) = shorts.right[link as usize] else {
        return Ok(());
    };
    let ends = sorted.link(link);
    let (left, right) = (ends.left(), ends.right());
    let left_trace = run_to_node(alloc, sorted.component(left).part(), left_node)?;
    let right_trace = run_to_node(alloc, sorted.component(right).part(), right_node)?;
    Err(Stop::Told(RuleFault::NoWholeEnd {
        left,
        right,
        left_trace,
        right_trace,
    }))
}
