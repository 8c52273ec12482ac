//! The name fault of a script.

ghost use Rattle.std.specs.Prelude.{◌≡◌, ◌+◌, ◌≤◌};
ghost use Rattle.name_faults.specs.Prelude.{[], map, slice_index, nat_lt, IfOk, OnOk, MOST_DATA_DEPTH, MOST_TREE_DEPTH, SameFirsts, AreSmall, declaration_depth, bodies_after, AreWithin, IsNext, deep_at, fault_after, fault_from, nothing_known, seen};
ghost use Rattle.script_names.specs.Names.{declared, first_of};
ghost use Rattle.script_names.specs.Told as meant;

use crate::bodies::bodies_of;
use crate::depths::depths_of;
use crate::known::Known;
use crate::scan::{is_any_inside, is_any_wrong_kind, repeated_name, unknown_name, wrong_count};
use crate::walk::Walk;
use csp_base::{Made, Name};
use csp_text::Decl;
use dl_limits::MOST_DATA_DEPTH;
use name_tables::{Meanings, kind_at};
use script_names::{Class, Kind, Occurrence, ResolveFault};

/// The name fault of a script with these declarations, whose names and definitions mean what `meanings` says.
#[tactic(auto, using(crate::proofs::DepthLemmas::depths_along, crate::proofs::KnownLemmas::whole_fault))]
pub fn name_fault<'a>(meanings: &Meanings<'a>, decls: &'a [Decl]) -> Made<Option<ResolveFault>>
    requires names { SameFirsts meanings.now.names.now (declared decls.now) }
    requires small { AreSmall decls.now }
    ensures { IfOk result (λ fault. fault ≡ meant.name_fault decls.now meanings.now.kinds.now) }
{
    let mut walk = Walk::new(meanings.alloc, meanings.names);
    let bodies = bodies_of(meanings, &mut walk, decls)?;
    let depths = depths_of(meanings.alloc, bodies.as_slice(), MOST_DATA_DEPTH + 1)?;
    let fault = first_fault(meanings, &mut walk, decls, depths.as_slice())?;
    Ok(fault)
}

// The first fault of the declarations.
fn first_fault<'a>(
    meanings: &Meanings<'_>,
    walk: &mut Walk<'a>,
    decls: &'a [Decl],
    depths: &[u32],
) -> Made<Option<ResolveFault>>
    requires walk { walk.old.names ≡ meanings.now.names.now }
    requires names { SameFirsts meanings.now.names.now (declared decls.now) }
    requires small { AreSmall decls.now }
    requires depths { AreWithin (MOST_DATA_DEPTH + 1) (MOST_DATA_DEPTH + 1)
        (bodies_after meanings.now 0 decls.now) depths.now }
    ensures { IfOk result (λ fault. fault ≡ fault_from decls.now meanings.now.kinds.now [] decls.now) }
{
    let mut known = Known::new(meanings.names);
    let fault = first_after(meanings, walk, decls, depths, &mut known);
    drop(known);
    fault
}

// The first fault of the declarations, of which none is known yet.
fn first_after<'a>(
    meanings: &Meanings<'_>,
    walk: &mut Walk<'a>,
    decls: &'a [Decl],
    depths: &[u32],
    known: &mut Known,
) -> Made<Option<ResolveFault>>
    requires known { known.old ≡ nothing_known }
    requires walk { walk.old.names ≡ meanings.now.names.now }
    requires names { SameFirsts meanings.now.names.now (declared decls.now) }
    requires small { AreSmall decls.now }
    requires depths { AreWithin (MOST_DATA_DEPTH + 1) (MOST_DATA_DEPTH + 1)
        (bodies_after meanings.now 0 decls.now) depths.now }
    ensures { IfOk result (λ fault. fault ≡ fault_from decls.now meanings.now.kinds.now [] decls.now) }
{
    for decl in decls {
        match fault_in(meanings, walk, depths, known, decl)? {
            Some(fault) => return Ok(Some(fault)),
            None => known.count(decl),
        }
    }
    Ok(None)
}

// The fault of a declaration that comes after those that are known.
fn fault_in<'a>(
    meanings: &Meanings<'_>,
    walk: &mut Walk<'a>,
    depths: &[u32],
    known: &mut Known,
    decl: &'a Decl,
) -> Made<Option<ResolveFault>>
    requires names { walk.old.names ≡ meanings.now.names.now }
    requires depth { declaration_depth decl.now ≤ MOST_TREE_DEPTH }
    ensures told { IfOk result (λ fault.
        fault ≡ fault_after (first_of meanings.now.names.now) meanings.now.kinds.now depths.now known.old decl.now) }
    ensures known { OnOk result (IsNext known.old decl.now known.new) }
    ensures names { OnOk result (walk.new.names ≡ meanings.now.names.now) }
{
    walk.clear();
    walk.declaration(meanings.kinds, known, decl)?;
    let deep = is_deep(meanings.kinds, depths, known.definitions, decl);
    let fault = fault_of(meanings, known.declarations, walk.occurrences(), deep)?;
    Ok(fault)
}

// Whether a declaration is a definition of data with the number d that is deeper than may be.
fn is_deep(kinds: &[Kind], depths: &[u32], d: u32, decl: &Decl) -> bool
    ensures { result ≡ deep_at kinds.now depths.now d decl.now }
{
    match decl {
        Decl::Define(_, _, _) => match kind_at(kinds, d as usize).class {
            Class::Data => is_over(depths, d),
            Class::Process | Class::Unknown => false,
        },
        Decl::Nametype(_, _) => is_over(depths, d),
        Decl::Channel(_, _)
        | Decl::Datatype(_, _)
        | Decl::Assert(_)
        | Decl::Roles(_)
        | Decl::Resource(_) => false,
    }
}

// Whether a definition is deeper than may be.
fn is_over(depths: &[u32], d: u32) -> bool
    ensures { result ≡ nat_lt MOST_DATA_DEPTH (slice_index depths.now d) }
{
    match depths.get(d as usize) {
        Some(depth) => *depth > MOST_DATA_DEPTH,
        None => false,
    }
}

// The fault of the declaration with the number i that says this.
fn fault_of(
    meanings: &Meanings<'_>,
    i: u32,
    said: &[Occurrence<&Name>],
    deep: bool,
) -> Made<Option<ResolveFault>>
    ensures { IfOk result (λ fault.
        fault ≡ meant.fault_of (first_of meanings.now.names.now) meanings.now.kinds.now i (map seen said.now) deep) }
{
    if let Some(name) = unknown_name(said) {
        let name = name.try_clone(meanings.alloc)?;
        return Ok(Some(ResolveFault::Unknown { inside: i, name }));
    }
    if let Some(name) = repeated_name(meanings.names, said) {
        let name = name.try_clone(meanings.alloc)?;
        return Ok(Some(ResolveFault::Twice { inside: i, name }));
    }
    if is_any_wrong_kind(meanings.kinds, said) {
        return Ok(Some(ResolveFault::WrongKind { inside: i }));
    }
    if let Some(name) = wrong_count(said) {
        let name = name.try_clone(meanings.alloc)?;
        return Ok(Some(ResolveFault::WrongCount { inside: i, name }));
    }
    if is_any_inside(meanings.kinds, said) {
        return Ok(Some(ResolveFault::ParallelInside { inside: i }));
    }
    if deep {
        return Ok(Some(ResolveFault::DataDepth { inside: i }));
    }
    Ok(None)
}
