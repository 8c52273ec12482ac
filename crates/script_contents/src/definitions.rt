//! The definitions of a script.

ghost use Rattle.std.specs.Prelude.{◌≡◌, ◌+◌, ◌≤◌, [], ◌++◌, length, IfOk, OnOk};
ghost use Rattle.dl_limits.specs.declared.TheConstants.{MOST_BYTES};
ghost use Rattle.name_tables.specs.Counted.{counts, total};
ghost use Rattle.script_contents.specs.Plain.{body_at, datatype_of, defined_by, definition_at, definitions_by, nametype_of, process_at, read_by};
ghost use Rattle.script_contents.specs.Plain as plain;
ghost use Rattle.script_names.specs.Contents as meant;
ghost use Rattle.script_names.specs.Prelude.{counted, none_yet};
ghost use Rattle.script_sizes.specs.BindingTokens.{tokens};
ghost use Rattle.script_sizes.specs.Size.{declaration_size, size};

use containers::Items;
use csp_base::{Made, Name};
use csp_program::{Body, Def, Expr};
use csp_text::{Decl, Tree};
use name_tables::declared::Numbers;
use name_tables::ends::bind_all;
use name_tables::{Meanings, Scope, kind_at};
use script_names::{Class, Kind};
use std::alloc::Global;
use typed_trees::Walk;

/// The definitions of a script.
pub fn definitions(meanings: &Meanings<'_>, decls: &[Decl]) -> Made<Items<Def>>
    requires { size decls.now ≤ MOST_BYTES }
    ensures { IfOk result (λ made. made ≡ definitions_by meanings.now none_yet decls.now) }
{
    let mut made = Items::new(meanings.alloc);
    let mut numbers = Numbers {
        channels: 0,
        constants: 0,
        definitions: 0,
    };
    for decl in decls {
        add_definition(meanings, &mut made, numbers, decl)?;
        numbers = count(numbers, decl);
    }
    Ok(made)
}

// The numbers after a declaration.
fn count(numbers: Numbers, decl: &Decl) -> Numbers
    requires { total (counts numbers) + declaration_size decl.now ≤ MOST_BYTES }
    ensures { counts result ≡ counted (counts numbers) decl.now }
{
    match decl {
        Decl::Channel(xs, _) => Numbers {
            channels: numbers.channels + xs.len() as u32,
            constants: numbers.constants,
            definitions: numbers.definitions,
        },
        Decl::Datatype(_, ks) => Numbers {
            channels: numbers.channels,
            constants: numbers.constants + ks.len() as u32,
            definitions: numbers.definitions + 1,
        },
        Decl::Nametype(_, _) | Decl::Define(_, _, _) => Numbers {
            channels: numbers.channels,
            constants: numbers.constants,
            definitions: numbers.definitions + 1,
        },
        Decl::Assert(_) | Decl::Roles(_) | Decl::Resource(_) => numbers,
    }
}

// Adds what a declaration defines, after so many of each kind.
fn add_definition(
    meanings: &Meanings<'_>,
    made: &mut Items<Def>,
    numbers: Numbers,
    decl: &Decl,
) -> Made<()>
    requires { total (counts numbers) + declaration_size decl.now ≤ MOST_BYTES }
    ensures { OnOk result (made.new ≡ made.old ++ defined_by meanings.now (counts numbers) decl.now) }
{
    match decl {
        Decl::Define(x, params, tree) => {
            let d = numbers.definitions;
            made.push_made(define(meanings, d, x, params.as_slice(), tree))
        }
        Decl::Nametype(x, tree) => made.push_made(nametype(meanings, x, tree)),
        Decl::Datatype(x, ks) => {
            made.push_made(datatype(meanings.alloc, x, numbers.constants, ks.len()))
        }
        Decl::Channel(_, _) | Decl::Assert(_) | Decl::Roles(_) | Decl::Resource(_) => Ok(()),
    }
}

// The definition with the number `d`.
fn define(meanings: &Meanings<'_>, d: u32, x: &Name, params: &[Name], tree: &Tree) -> Made<Def>
    requires { length params.now + tokens tree.now ≤ MOST_BYTES }
    ensures { IfOk result (λ def. def ≡ definition_at meanings.now d x.now params.now tree.now) }
{
    let name = x.try_clone(meanings.alloc)?;
    let numbers = numbers_from(meanings.alloc, 0, params.len())?;
    body_under(meanings, d, params, tree).map(|body| Def {
        name,
        params: numbers,
        body,
    })
}

// The body of the definition with the number `d`, which has these parameters.
fn body_under(meanings: &Meanings<'_>, d: u32, params: &[Name], tree: &Tree) -> Made<Body>
    requires { length params.now + tokens tree.now ≤ MOST_BYTES }
    ensures { IfOk result (λ body. body ≡ plain.body_under meanings.now d params.now tree.now) }
{
    let mut scope = Scope::new(meanings.alloc);
    bind_all(&mut scope, params)?;
    let mut walk = Walk::new(meanings, scope, params.len() as u32);
    body(&mut walk, kind_at(meanings.kinds, d as usize), tree)
}

// The body of a definition of this kind.
fn body(walk: &mut Walk<'_>, kind: Kind, tree: &Tree) -> Made<Body>
    requires { walk.old.next + tokens tree.now ≤ MOST_BYTES }
    ensures { IfOk result (λ body. body ≡ body_at walk.old kind tree.now) }
{
    match kind.class {
        Class::Data => walk.typed_expr(tree).map(Body::Datum),
        Class::Process | Class::Unknown => process_body(walk, kind.network, tree),
    }
}

// The body of a process or of a network definition.
fn process_body(walk: &mut Walk<'_>, network: bool, tree: &Tree) -> Made<Body>
    requires { walk.old.next + tokens tree.now ≤ MOST_BYTES }
    ensures { IfOk result (λ body. body ≡ process_at walk.old network tree.now) }
{
    if network {
        return walk.typed_net(tree).map(Body::Network);
    }
    walk.typed_proc(tree).map(Body::Process)
}

// A nametype.
fn nametype(meanings: &Meanings<'_>, x: &Name, tree: &Tree) -> Made<Def>
    requires { tokens tree.now ≤ MOST_BYTES }
    ensures { IfOk result (λ def. def ≡ nametype_of meanings.now x.now tree.now) }
{
    let alloc = meanings.alloc;
    let name = x.try_clone(alloc)?;
    set_of(meanings, tree).map(|set| Def {
        name,
        params: Items::new(alloc),
        body: Body::Nametype(set),
    })
}

// The set of a nametype.
fn set_of(meanings: &Meanings<'_>, tree: &Tree) -> Made<Expr>
    requires { tokens tree.now ≤ MOST_BYTES }
    ensures { IfOk result (λ set. set ≡ (read_by meanings.now tree.now).expr [] 0) }
{
    let mut walk = Walk::new(meanings, Scope::new(meanings.alloc), 0);
    let set = walk.typed_expr(tree)?;
    Ok(set)
}

// A datatype of so many constants, the first of which has the number `first`.
fn datatype(alloc: Global, x: &Name, first: u32, count: usize) -> Made<Def>
    requires { first + count ≤ MOST_BYTES }
    ensures { IfOk result (λ def. def ≡ datatype_of x.now first count) }
{
    let name = x.try_clone(alloc)?;
    numbers_from(alloc, first, count).map(|constants| Def {
        name,
        params: Items::new(alloc),
        body: Body::Datatype(constants),
    })
}

// The numbers from `first` on, so many of them.
fn numbers_from(alloc: Global, first: u32, count: usize) -> Made<Items<u32>>
    requires { first + count ≤ MOST_BYTES }
    ensures { IfOk result (λ made. made ≡ meant.numbers_from first count) }
{
    let mut made = Items::new(alloc);
    let mut number = first;
    for _place in 0..count {
        made.push(number)?;
        number += 1;
    }
    Ok(made)
}
