//! How deep the bodies of definitions reach.

ghost use Rattle.std.specs.Prelude.{◌≡◌, ◌+◌, ◌≤◌, ◌∷◌, ◌++◌};
ghost use Rattle.name_faults.specs.Prelude.{[], map, length, slice_get, IfOk, OnOk, tree_depth, MOST_TREE_DEPTH, kind_class, first_of, tree_says, body_place, expanded_body, declaration_depth, depth};
ghost use Rattle.name_faults.specs.Bodies as meant;

use crate::body::{Body, body_of};
use crate::places;
use crate::walk::Walk;
use containers::Items;
use csp_base::{Made, Name};
use csp_text::{Decl, Tree};
use name_tables::{Meanings, kind_at};
use script_names::{Class, Place};
use std::alloc::Global;

/// How deep the body of each definition reaches, as far as it is expanded where the definition is used.
pub(crate) fn bodies_of<'a>(
    meanings: &Meanings<'_>,
    walk: &mut Walk<'a>,
    decls: &'a [Decl],
) -> Made<Items<Body>>
    requires names { walk.old.names ≡ meanings.now.names.now }
    requires depth { depth decls.now ≤ MOST_TREE_DEPTH }
    ensures bodies { IfOk result (λ bodies. bodies ≡ meant.bodies_after meanings.now 0 decls.now) }
    ensures names { OnOk result (walk.new.names ≡ meanings.now.names.now) }
{
    let mut bodies = Items::new(meanings.alloc);
    for decl in decls {
        add_body(meanings, walk, &mut bodies, decl)?;
    }
    Ok(bodies)
}

// Adds how deep the body of a definition reaches.
fn add_body<'a>(
    meanings: &Meanings<'_>,
    walk: &mut Walk<'a>,
    bodies: &mut Items<Body>,
    decl: &'a Decl,
) -> Made<()>
    requires names { walk.old.names ≡ meanings.now.names.now }
    requires depth { declaration_depth decl.now ≤ MOST_TREE_DEPTH }
    ensures bodies { OnOk result
        (bodies.new ≡ bodies.old ++ meant.bodies_after meanings.now (length bodies.old) (decl.now ∷ [])) }
    ensures names { OnOk result (walk.new.names ≡ meanings.now.names.now) }
{
    match decl {
        Decl::Define(_, params, tree) => {
            let d = bodies.len();
            bodies.push_made(expanded_body(meanings, walk, d, params.as_slice(), tree))
        }
        Decl::Nametype(_, tree) => {
            bodies.push_made(body_at(meanings, walk, &[], places::data_place(), tree))
        }
        Decl::Datatype(_, _) => bodies.push(no_body(meanings.alloc)),
        Decl::Channel(_, _) | Decl::Assert(_) | Decl::Roles(_) | Decl::Resource(_) => Ok(()),
    }
}

// How deep the body of a definition reaches. That of a process is not expanded.
fn expanded_body<'a>(
    meanings: &Meanings<'_>,
    walk: &mut Walk<'a>,
    d: usize,
    params: &'a [Name],
    tree: &'a Tree,
) -> Made<Body>
    requires names { walk.old.names ≡ meanings.now.names.now }
    requires depth { tree_depth tree.now ≤ MOST_TREE_DEPTH }
    ensures body { IfOk result (λ body. body ≡ meant.expanded_at meanings.now d params.now tree.now) }
    ensures names { OnOk result (walk.new.names ≡ meanings.now.names.now) }
{
    match kind_at(meanings.kinds, d).class {
        Class::Process => Ok(no_body(meanings.alloc)),
        Class::Data | Class::Unknown => {
            body_at(
                meanings,
                walk,
                params,
                places::body_place(meanings.kinds, d),
                tree,
            )
        }
    }
}

// How deep a body reaches that says nothing.
fn no_body(alloc: Global) -> Body
    ensures { result ≡ meant.body_of [] }
{
    Body {
        level: 0,
        uses: Items::new(alloc),
    }
}

// How deep a tree reaches.
fn body_at<'a>(
    meanings: &Meanings<'_>,
    walk: &mut Walk<'a>,
    params: &'a [Name],
    place: Place,
    tree: &'a Tree,
) -> Made<Body>
    requires names { walk.old.names ≡ meanings.now.names.now }
    requires depth { place.level + tree_depth tree.now ≤ MOST_TREE_DEPTH + 1 }
    ensures body { IfOk result (λ body.
        body ≡ meant.body_of (tree_says (first_of meanings.now.names.now) tree.now place params.now)) }
    ensures names { OnOk result (walk.new.names ≡ meanings.now.names.now) }
{
    walk.clear();
    walk.body(params, tree, place)?;
    let body = body_of(meanings.alloc, walk.occurrences())?;
    Ok(body)
}
