//! Where bodies end as a digraph, in which arcs are turned round: an arc leads to a definition from each definition that it ends at a use of, and from
//! one vertex more where it has the end that is looked for.

ghost use Rattle.std.specs.Prelude.{◌≡◌, ℕ, ◌+◌, ◌<◌, ◌≤◌, ◌&&◌, ◌||◌, nat_eq, [], length, replicate, slice_get, IfOk, OnOk};
ghost use Rattle.definition_kinds.specs.Sources as meant;
ghost use Rattle.digraph.specs.Digraph.{has_arc};
ghost use Rattle.dl_limits.specs.declared.TheConstants.{MOST_BYTES};
ghost use Rattle.name_tables.specs.Ends.{rows};
ghost use Rattle.script_names.specs.Kinds.{ends_at};

use csp_base::Made;
use digraph::Rows;
use script_names::End;
use std::alloc::Global;

// What is looked for: an end, from so many definitions.
#[derive(Clone, Copy)]
struct Sought {
    count: u32,
    target: End,
}

// Whether an end is the one looked for; no process and no use is.
fn is_last(target: End, end: End) -> bool
    ensures { result ≡ meant.is_last target end }
{
    match (target, end) {
        (End::Data, End::Data) | (End::Nothing, End::Nothing) | (End::Parallel, End::Parallel) =>
            true,
        _ => false,
    }
}

// The vertex that an end comes from, if it has one.
fn source_of(sought: Sought, end: End) -> Option<u32>
    ensures { result ≡ meant.source_of sought.count sought.target end }
{
    match end {
        End::Use(d) => { if d < sought.count { Some(d) } else { None } }
        End::Data | End::Process | End::Parallel | End::Nothing => {
            if is_last(sought.target, end) {
                Some(sought.count)
            } else {
                None
            }
        }
    }
}

// Adds the arc to the definition `d` that one of its ends makes.
fn add_end(rows: &mut Rows, sought: Sought, d: u32, end: End) -> Made<()>
    requires count { length rows.old ≡ sought.count + 1 }
    requires in_range { d < sought.count }
    ensures len { length rows.new ≡ length rows.old }
    ensures arcs { OnOk result ((v w : ℕ) →
        has_arc rows.new v w
        ≡ (has_arc rows.old v w || (meant.comes_from sought.count sought.target v end && nat_eq w d))) }
{
    match source_of(sought, end) {
        Some(v) => {
            rows.add_arc(v, d)?;
            Ok(())
        }
        None => Ok(()),
    }
}

// Adds the arcs to the definition `d` that its ends make.
fn add_ends(rows: &mut Rows, sought: Sought, d: u32, ends: &[End]) -> Made<()>
    requires count { length rows.old ≡ sought.count + 1 }
    requires in_range { d < sought.count }
    ensures len { length rows.new ≡ length rows.old }
    ensures arcs { OnOk result ((v w : ℕ) →
        has_arc rows.new v w
        ≡ (has_arc rows.old v w || (meant.some_from sought.count sought.target v ends.now && nat_eq w d))) }
{
    for end in ends {
        add_end(rows, sought, d, *end)?;
    }
    Ok(())
}

// So many vertices and one more, without an arc.
fn no_arcs(alloc: Global, count: u32) -> Made<Rows>
    requires { count ≤ MOST_BYTES }
    ensures { IfOk result (λ made. made ≡ replicate (count + 1) []) }
{
    Rows::new(alloc, count + 1)
}

/// The digraph of these definitions. The vertex `count`, which is their number, stands for the end that is looked for.
pub fn turn_round(alloc: Global, all: &[Vec<End>], count: u32, target: End) -> Made<Rows>
    requires count { length all.now ≡ count }
    requires few { count ≤ MOST_BYTES }
    ensures len { IfOk result (λ made. length made ≡ count + 1) }
    ensures arcs { IfOk result (λ made. (v w : ℕ) →
        has_arc made v w ≡ meant.some_from count target v (ends_at (slice_get (rows all.now) w))) }
{
    let sought = Sought { count, target };
    let mut rows = no_arcs(alloc, count)?;
    let mut d: u32 = 0;
    for ends in all {
        add_ends(&mut rows, sought, d, ends.as_slice())?;
        d += 1;
    }
    Ok(rows)
}
