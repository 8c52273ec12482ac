//! The definitions from which following ends leads to an end that is looked for.

ghost use Rattle.std.specs.Prelude.{◌≡◌, ◌<◌, ◌≤◌, ℕ, true, [], ◌∷◌, ◌++◌, length, take, IfOk, OnOk};
ghost use Rattle.csp_base.specs.Members.{has};
ghost use Rattle.definition_kinds.specs.Sources as sources;
ghost use Rattle.definition_kinds.specs.Sources.{AreLeading, AreReached, is_last};
ghost use Rattle.dl_limits.specs.declared.TheConstants.{MOST_BYTES};
ghost use Rattle.name_tables.specs.Ends.{rows};
ghost use Rattle.script_names.specs.Kinds as meant;

use crate::arcs::turn_round;
use containers::Numbering;
use csp_base::Made;
use digraph::reachable_from;
use script_names::End;
use std::alloc::Global;

/// For each definition whether it leads to `target`, which is data, a parallel or no meaning.
pub fn mark_leading(alloc: Global, all: &[Vec<End>], target: End) -> Made<Vec<bool>>
    requires last { is_last target target ≡ true }
    requires few { length all.now ≤ MOST_BYTES }
    ensures { IfOk result (λ marks. AreLeading target (rows all.now) marks.items) }
{
    let count = all.len() as u32;
    let found = vertices_from(alloc, all, count, target)?;
    let marks = marks_of(alloc, &found, count)?;
    Ok(marks)
}

// The vertices that are reached from the one that stands for the target.
fn vertices_from(alloc: Global, all: &[Vec<End>], count: u32, target: End) -> Made<Numbering<u32>>
    requires count { length all.now ≡ count }
    requires few { count ≤ MOST_BYTES }
    requires last { is_last target target ≡ true }
    ensures { IfOk result (AreReached target (rows all.now)) }
{
    let rows = turn_round(alloc, all, count, target)?;
    let found = reachable_from(alloc, &rows, &[count])?;
    Ok(found)
}

// For each number below `count` whether it is found.
fn marks_of(alloc: Global, found: &Numbering<u32>, count: u32) -> Made<Vec<bool>>
    ensures { IfOk result (λ marks. (d : ℕ) → d < count → sources.marked marks.items d ≡ has found.now d) }
{
    let mut marks = Vec::new(alloc);
    for d in 0..count {
        marks.push(is_found(found, d))?;
    }
    Ok(marks)
}

// Whether the number is found.
fn is_found(found: &Numbering<u32>, d: u32) -> bool
    ensures { result ≡ has found.now d }
{
    found.find(&d).is_some()
}

/// Whether the definition with the number `d` is marked.
pub fn is_marked(marks: &[bool], d: u32) -> bool
    ensures { result ≡ sources.marked marks.now d }
{
    let place = d as usize;
    if place < marks.len() {
        marks[place]
    } else {
        false
    }
}

/// The first end of each definition.
pub fn first_ends(alloc: Global, all: &[Vec<End>]) -> Made<Vec<Vec<End>>>
    ensures { IfOk result (λ firsts. rows firsts.items ≡ meant.first_ends (rows all.now)) }
{
    let mut firsts = Vec::new(alloc);
    for ends in all {
        push_first(alloc, &mut firsts, ends.as_slice())?;
    }
    Ok(firsts)
}

// Puts the first end of a definition at the end.
fn push_first(alloc: Global, firsts: &mut Vec<Vec<End>>, ends: &[End]) -> Made<()>
    ensures { OnOk result (rows firsts.new.items ≡ rows firsts.old.items ++ take 1 ends.now ∷ []) }
{
    let first = first_end(alloc, ends)?;
    firsts.push(first)?;
    Ok(())
}

// The first end of a definition.
fn first_end(alloc: Global, ends: &[End]) -> Made<Vec<End>>
    ensures { IfOk result (λ first. first.items ≡ take 1 ends.now) }
{
    let mut first = Vec::new(alloc);
    if let Some(end) = ends.first() {
        first.push(*end)?;
    }
    Ok(first)
}
