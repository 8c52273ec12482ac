//! Where bodies end.

ghost use Rattle.std.specs.Prelude.{◌≡◌, ◌≤◌, List, [], ◌∷◌, ◌++◌, length, IfOk, OnOk};
ghost use Rattle.std.specs.List.{flat_map};
ghost use Rattle.dl_limits.specs.declared.TheConstants.{MOST_BYTES};
ghost use Rattle.script_names.specs.Prelude.{parameters, first_of, sense_in, names_of};
ghost use Rattle.script_names.specs.Kinds as meant;
ghost use Rattle.script_sizes.specs.Size.{declaration_size, size};
ghost use Rattle.name_tables.specs.Ends.{rows};

use crate::dictionary::Dictionary;
use crate::scope::Scope;
use csp_base::{Made, Name};
use csp_text::{Decl, Tree};
use script_names::{End, Entity, Sense};
use std::alloc::Global;

/// What a name stands for under bound names.
#[tactic(auto, using(crate::proofs::ScopeLemmas::bound_if_found))]
pub fn sense_in(names: &Dictionary, scope: &Scope, x: &Name) -> Sense
    ensures { result ≡ sense_in (first_of names.now) (names_of scope.now) x.now }
{
    if scope.find(x).is_some() {
        return Sense::Bound;
    }
    match names.find(x) {
        Some(entity) => Sense::Declared(entity),
        None => Sense::Unknown,
    }
}

// The end at a name alone.
fn end_of_name(sense: Sense) -> End
    ensures { result ≡ meant.end_of_name sense }
{
    match sense {
        Sense::Bound
        | Sense::Declared(Entity::Channel(_, _))
        | Sense::Declared(Entity::Constant(_))
        | Sense::Declared(Entity::Set(_)) => End::Data,
        Sense::Declared(Entity::Definition(d, _)) => End::Use(d),
        Sense::Unknown => End::Nothing,
    }
}

// The end at a call.
fn end_of_call(sense: Sense) -> End
    ensures { result ≡ meant.end_of_call sense }
{
    match sense {
        Sense::Declared(Entity::Definition(d, _)) => End::Use(d),
        Sense::Bound
        | Sense::Declared(Entity::Channel(_, _))
        | Sense::Declared(Entity::Constant(_))
        | Sense::Declared(Entity::Set(_))
        | Sense::Unknown => End::Nothing,
    }
}

/// Puts the ends of a body at the end of `ends`.
pub fn add_ends(names: &Dictionary, scope: &Scope, ends: &mut Vec<End>, tree: &Tree) -> Made<()>
    ensures { OnOk result (ends.new.items
        ≡ ends.old.items ++ meant.ends (first_of names.now) (names_of scope.now) tree.now) }
{
    let end = match tree {
        Tree::If(_, a, b) => {
            add_ends(names, scope, ends, a.get())?;
            return add_ends(names, scope, ends, b.get());
        }
        Tree::Name(x) => end_of_name(sense_in(names, scope, x)),
        Tree::Call(f, _) => end_of_call(sense_in(names, scope, f)),
        Tree::Parallel(_, _, _, _) | Tree::EachParallel(_, _, _, _) => End::Parallel,
        Tree::Stop
        | Tree::Skip
        | Tree::Prefix(_, _)
        | Tree::Guard(_, _)
        | Tree::External(_)
        | Tree::Internal(_)
        | Tree::EachExternal(_, _, _)
        | Tree::EachInternal(_, _, _)
        | Tree::Seq(_, _)
        | Tree::Hide(_, _)
        | Tree::Rename(_, _, _) => End::Process,
        Tree::Num(_)
        | Tree::True
        | Tree::False
        | Tree::Dot(_, _)
        | Tree::Neg(_)
        | Tree::Not(_)
        | Tree::Binary(_, _, _)
        | Tree::Display(_)
        | Tree::Range(_, _)
        | Tree::Comp(_, _)
        | Tree::Product(_, _)
        | Tree::SetOp(_, _, _) => End::Data,
    };
    ends.push(end)?;
    Ok(())
}

/// The ends of the body of each definition.
pub fn ends_of_all(alloc: Global, names: &Dictionary, decls: &[Decl]) -> Made<Vec<Vec<End>>>
    requires { size decls.now ≤ MOST_BYTES }
    ensures { IfOk result (λ all. rows all.items ≡ flat_map (meant.body_ends (first_of names.now)) decls.now) }
{
    let mut all = Vec::new(alloc);
    add_bodies(alloc, names, &mut all, decls)?;
    Ok(all)
}

// Puts the ends of the bodies of definitions at the end.
fn add_bodies(
    alloc: Global,
    names: &Dictionary,
    all: &mut Vec<Vec<End>>,
    decls: &[Decl],
) -> Made<()>
    requires { size decls.now ≤ MOST_BYTES }
    ensures { OnOk result (rows all.new.items
        ≡ rows all.old.items ++ flat_map (meant.body_ends (first_of names.now)) decls.now) }
{
    for decl in decls {
        add_body(alloc, names, all, decl)?;
    }
    Ok(())
}

// Puts the ends of a body at the end, where the declaration is a definition.
fn add_body(alloc: Global, names: &Dictionary, all: &mut Vec<Vec<End>>, decl: &Decl) -> Made<()>
    requires { declaration_size decl.now ≤ MOST_BYTES }
    ensures { OnOk result (rows all.new.items ≡ rows all.old.items ++ meant.body_ends (first_of names.now) decl.now) }
{
    match decl {
        Decl::Define(_, params, tree) => {
            push_made(all, ends_under(alloc, names, params.as_slice(), tree))
        }
        Decl::Nametype(_, _) | Decl::Datatype(_, _) => push_made(all, data_ends(alloc)),
        Decl::Channel(_, _) | Decl::Assert(_) | Decl::Roles(_) | Decl::Resource(_) => Ok(()),
    }
}

// Puts the ends of a body at the end.
fn push_made(all: &mut Vec<Vec<End>>, made: Made<Vec<End>>) -> Made<()>
    ensures { (ends : List End) → IfOk made (λ row. row.items ≡ ends)
        → OnOk result (rows all.new.items ≡ rows all.old.items ++ ends ∷ []) }
{
    let ends = made?;
    all.push(ends)?;
    Ok(())
}

// The ends of a body under parameters.
fn ends_under(alloc: Global, names: &Dictionary, params: &[Name], tree: &Tree) -> Made<Vec<End>>
    requires { length params.now ≤ MOST_BYTES }
    ensures { IfOk result (λ ends. ends.items ≡ meant.ends (first_of names.now) params.now tree.now) }
{
    let mut scope = Scope::new(alloc);
    bind_all(&mut scope, params)?;
    ends_of(alloc, names, &scope, tree)
}

// The ends of a body.
fn ends_of(alloc: Global, names: &Dictionary, scope: &Scope, tree: &Tree) -> Made<Vec<End>>
    ensures { IfOk result (λ ends. ends.items ≡ meant.ends (first_of names.now) (names_of scope.now) tree.now) }
{
    let mut ends = Vec::new(alloc);
    add_ends(names, scope, &mut ends, tree)?;
    Ok(ends)
}

// The end of a nametype and of a datatype.
fn data_ends(alloc: Global) -> Made<Vec<End>>
    ensures { IfOk result (λ ends. ends.items ≡ End.Data ∷ []) }
{
    let mut ends = Vec::new(alloc);
    ends.push(End::Data)?;
    Ok(ends)
}

/// Binds names, numbered from 0 on.
pub fn bind_all(scope: &mut Scope, xs: &[Name]) -> Made<()>
    requires { length xs.now ≤ MOST_BYTES }
    ensures { OnOk result (scope.new ≡ scope.old ++ parameters 0 xs.now) }
{
    let mut n = 0;
    for x in xs {
        scope.bind(x, n)?;
        n += 1;
    }
    Ok(())
}
