//! The declarations of a script.

ghost use Rattle.std.specs.Prelude.{◌≡◌, ◌<◌, ◌+◌, ◌*◌, List, length, IfOk, Some};
ghost use Rattle.csp_text.specs.declared.script.Decl.{Decl as DeclValue};
ghost use Rattle.csp_text.specs.declared.script.Decl.TheVariants as decl;
ghost use Rattle.csp_text.specs.declared.token.Token.{Token as TokenValue};
ghost use Rattle.tree_parser.specs.Reads.{Reads, part_read};
ghost use Rattle.tree_reading.specs.Prelude.{Gives, read_declaration, read_word_declaration};

use crate::assertion::assertion;
use crate::declared::{channel, datatype, definition, nametype};
use containers::{Boxed, Items};
use csp_base::{Made, Name};
use csp_text::{Decl, ResourceNames, RolesNames, Token, Word};
use std::alloc::Global;
use tree_reading::fault::{OrNoText, no_text};
use tree_reading::read::{Read, Reading};

// Copies of two names.
fn copy_pair(alloc: Global, a: &Name, b: &Name) -> Made<(Name, Name)>
    ensures first { IfOk result (λ pair. pair.0 ≡ a.now) }
    ensures second { IfOk result (λ pair. pair.1 ≡ b.now) }
{
    let first = a.try_clone(alloc)?;
    b.try_clone(alloc).map(|second| (first, second))
}

// A copy of the names of roles.
fn copy_roles(alloc: Global, names: &RolesNames) -> Made<RolesNames>
    ensures { IfOk result (λ copy. copy ≡ names.now) }
{
    let process = names.process.try_clone(alloc)?;
    let (creq, cack) = copy_pair(alloc, &names.creq, &names.cack)?;
    copy_pair(alloc, &names.sreq, &names.sack).map(|(sreq, sack)| RolesNames {
        process,
        creq,
        cack,
        sreq,
        sack,
    })
}

// A copy of the names of a resource.
fn copy_resource(alloc: Global, names: &ResourceNames) -> Made<ResourceNames>
    ensures { IfOk result (λ copy. copy ≡ names.now) }
{
    let process = names.process.try_clone(alloc)?;
    copy_pair(alloc, &names.acquire, &names.release).map(|(acquire, release)| ResourceNames {
        process,
        acquire,
        release,
    })
}

// The annotation of these names, and what follows it.
fn roles<'t>(alloc: Global, names: &Boxed<RolesNames>, rest: &'t [Token]) -> Reading<'t, Decl>
    ensures { Gives {B = DeclValue × List TokenValue} result part_read (Some (decl.Roles names.now, rest.now)) }
{
    let part = Decl::Roles(copy_roles(alloc, names.get())?);
    Ok(Read { part, rest })
}

// The annotation of these names, and what follows it.
fn resource<'t>(alloc: Global, names: &Boxed<ResourceNames>, rest: &'t [Token]) -> Reading<'t, Decl>
    ensures { Gives {B = DeclValue × List TokenValue} result part_read (Some (decl.Resource names.now, rest.now)) }
{
    let part = Decl::Resource(copy_resource(alloc, names.get())?);
    Ok(Read { part, rest })
}

// The declaration behind this word, which stands at the front of all tokens.
fn word_declaration<'t>(
    alloc: Global,
    word: Word,
    all: &'t [Token],
    tokens: &'t [Token],
) -> Reading<'t, Decl>
    ensures reads { Reads result part_read (8 * length tokens.now + 1) (λ L. read_word_declaration L word tokens.now) }
    ensures shorter { IfOk result (λ r. length r.rest.now < length tokens.now) }
{
    match word {
        Word::Channel => channel(alloc, tokens),
        Word::Datatype => datatype(alloc, tokens),
        Word::Nametype => nametype(alloc, tokens),
        Word::Assert => assertion(alloc, tokens),
        _ => Err(no_text(all)),
    }
}

// The declaration at the front.
fn declaration(alloc: Global, tokens: &[Token]) -> Reading<'_, Decl>
    ensures reads { Reads result part_read (8 * length tokens.now) (λ L. read_declaration L tokens.now) }
    ensures shorter { IfOk result (λ r. length r.rest.now < length tokens.now) }
{
    let Some((first, rest)) = tokens.split_first() else {
        return Err(no_text(tokens));
    };
    match first {
        Token::Name(defined) => definition(alloc, defined, rest),
        Token::Word(word) => word_declaration(alloc, *word, tokens, rest),
        Token::Roles(names) => roles(alloc, names, rest),
        Token::Resource(names) => resource(alloc, names, rest),
        _ => Err(no_text(tokens)),
    }
}

// The declarations that the tokens are, one after another.
pub(crate) fn declarations(alloc: Global, tokens: &[Token]) -> OrNoText<Items<Decl>>
    ensures reads { Reads result (λ decls. decls) (8 * length tokens.now + 1) (λ L. L.declarations tokens.now) }
{
    let mut decls = Items::new(alloc);
    let mut rest = tokens;
    while !rest.is_empty() {
        let found = match declaration(alloc, rest) {
            Ok(found) => found,
            Err(fault) => return Err(fault),
        };
        decls.push(found.part)?;
        rest = found.rest;
    }
    Ok(decls)
}
