//! What the definitions of a script are.

ghost use Rattle.std.specs.Prelude.{◌≡◌, ◌≤◌, length, IfOk};
ghost use Rattle.definition_kinds.specs.Prelude.{AreFound, IsFound, AreLeading};
ghost use Rattle.definition_kinds.specs.Found as meant;
ghost use Rattle.dl_limits.specs.declared.TheConstants.{MOST_BYTES};
ghost use Rattle.name_tables.specs.Prelude.{rows, SameFirsts};
ghost use Rattle.script_names.specs.Prelude.{AreKinds, AreKindsOf, declared};
ghost use Rattle.script_names.specs.Kinds.{first_ends as firsts_of};
ghost use Rattle.script_sizes.specs.Size.{size};

use crate::leading::{first_ends, is_marked, mark_leading};
use csp_base::Made;
use csp_text::Decl;
use name_tables::Dictionary;
use name_tables::ends::ends_of_all;
use script_names::{Class, End, Kind};
use std::alloc::Global;

// What was found of each definition.
struct Found {
    /// Whether it is data.
    data: Vec<bool>,
    /// Whether it ends at a name without a meaning.
    nothing: Vec<bool>,
    /// Whether it is a network definition.
    networks: Vec<bool>,
}

// By hand, so that a function that ends one calls this.
impl Drop for Found {
    fn drop(self) {
        let Found {
            data,
            nothing,
            networks,
        } = self;
    }
}

/// What each definition of a script is, where `names` are its declared names.
pub fn kinds_of(alloc: Global, decls: &[Decl], names: &Dictionary) -> Made<Vec<Kind>>
    requires names { SameFirsts names.now (declared decls.now) }
    requires few { size decls.now ≤ MOST_BYTES }
    ensures { IfOk result (λ kinds. AreKinds decls.now kinds.items) }
{
    let all = ends_of_all(alloc, names, decls)?;
    let kinds = kinds_among(alloc, all.as_slice())?;
    Ok(kinds)
}

// What definitions with these ends are.
fn kinds_among(alloc: Global, all: &[Vec<End>]) -> Made<Vec<Kind>>
    requires { length all.now ≤ MOST_BYTES }
    ensures { IfOk result (λ kinds. AreKindsOf (rows all.now) kinds.items) }
{
    let found = find_among(alloc, all)?;
    let kinds = kinds_found(alloc, &found, all.len())?;
    Ok(kinds)
}

// What is found of definitions with these ends.
fn find_among(alloc: Global, all: &[Vec<End>]) -> Made<Found>
    requires { length all.now ≤ MOST_BYTES }
    ensures { IfOk result (IsFound (rows all.now)) }
{
    let (data, nothing) = classes_among(alloc, all)?;
    let networks = mark_leading(alloc, all, End::Parallel)?;
    Ok(Found {
        data,
        nothing,
        networks,
    })
}

// Which definitions with these ends are data, and which end at a name without a meaning.
fn classes_among(alloc: Global, all: &[Vec<End>]) -> Made<(Vec<bool>, Vec<bool>)>
    requires { length all.now ≤ MOST_BYTES }
    ensures data { IfOk result (λ marks. AreLeading End.Data (firsts_of (rows all.now)) marks.0.items) }
    ensures nothing { IfOk result (λ marks. AreLeading End.Nothing (firsts_of (rows all.now)) marks.1.items) }
{
    let firsts = first_ends(alloc, all)?;
    let data = mark_leading(alloc, firsts.as_slice(), End::Data)?;
    mark_leading(alloc, firsts.as_slice(), End::Nothing).map(|nothing| (data, nothing))
}

// What so many definitions are.
fn kinds_found(alloc: Global, found: &Found, count: usize) -> Made<Vec<Kind>>
    requires { count ≤ MOST_BYTES }
    ensures { IfOk result (λ kinds. AreFound found.now count kinds.items) }
{
    let mut kinds = Vec::new(alloc);
    for d in 0..count as u32 {
        kinds.push(kind_found(found, d))?;
    }
    Ok(kinds)
}

// What the definition with the number `d` is.
fn kind_found(found: &Found, d: u32) -> Kind
    ensures { result ≡ meant.kind_found found.now d }
{
    Kind {
        class: class_found(found, d),
        network: is_marked(found.networks.as_slice(), d),
    }
}

// The class of the definition with the number `d`.
fn class_found(found: &Found, d: u32) -> Class
    ensures { result ≡ meant.class_found found.now d }
{
    if is_marked(found.data.as_slice(), d) {
        return Class::Data;
    }
    if is_marked(found.nothing.as_slice(), d) {
        return Class::Unknown;
    }
    Class::Process
}
