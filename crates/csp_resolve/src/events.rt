//! The field sets of a script's channels, and its event table.

ghost use Rattle.std.specs.Prelude.{◌≡◌, ◌≤◌, IsTrue, List, [], ◌∷◌, ◌++◌, length, map, OnOk};
ghost use Rattle.csp_program.specs.Prelude.{lacks_sets, all_true};
ghost use Rattle.csp_resolve.specs.Answers.{Answers, Grows, sets_of, types_read};
ghost use Rattle.dl_limits.specs.declared.TheConstants.{MOST_BYTES};
ghost use Rattle.event_tables.specs.Spread.{spread};
ghost use Rattle.script_names.specs.Names.{first_of};
ghost use Rattle.script_names.specs.Resolved as meant;
ghost use Rattle.script_sizes.specs.Size.{declaration_size, size};
ghost use Rattle.csp_atoms.specs.declared.atom.Atom.{Atom};

use crate::resolution::Resolved;
use containers::Items;
use csp_atoms::AtomSet;
use csp_base::{Made, Stop};
use csp_program::{Content, Expr};
use csp_text::Decl;
use dl_limits::MOST_EVENTS;
use event_tables::{SharedSets, event_count, field_sets, fill_events};
use name_tables::Meanings;
use script_contents::types_of;
use script_names::ResolveFault;
use std::alloc::Global;

/// The field sets of the channels of declarations. A type that has no value that fits is told in its declaration.
pub fn channel_sets(
    meanings: &Meanings<'_>,
    content: &Content,
    decls: &[Decl],
) -> Resolved<Vec<SharedSets>>
    requires few { size decls.now ≤ MOST_BYTES }
    requires plain { IsTrue (all_true (map lacks_sets content.now.channels)) }
    ensures { Answers (λ shared. spread shared.items) result (meant.channel_sets content.now
        (types_read (first_of meanings.now.names.now) meanings.now.kinds.now) 0 decls.now) }
{
    let mut shared = Vec::new(meanings.alloc);
    let mut i: u32 = 0;
    for decl in decls {
        add_sets(meanings, content, &mut shared, i, decl)?;
        i += 1;
    }
    Ok(shared)
}

// Adds the field sets of the channels of the declaration with the number `i`.
fn add_sets(
    meanings: &Meanings<'_>,
    content: &Content,
    shared: &mut Vec<SharedSets>,
    i: u32,
    decl: &Decl,
) -> Resolved<()>
    requires few { declaration_size decl.now ≤ MOST_BYTES }
    requires plain { IsTrue (all_true (map lacks_sets content.now.channels)) }
    ensures { Grows result shared.old.items shared.new.items (sets_of content.now
        (types_read (first_of meanings.now.names.now) meanings.now.kinds.now) i decl.now) }
{
    match decl {
        Decl::Channel(xs, types) => {
            let types = types_of(meanings, types.as_slice())?;
            let sets = sets_in(meanings.alloc, content, i, types.as_slice())?;
            let channels = xs.len();
            push_shared(shared, SharedSets { channels, sets })?;
            Ok(())
        }
        Decl::Datatype(_, _)
        | Decl::Nametype(_, _)
        | Decl::Define(_, _, _)
        | Decl::Assert(_)
        | Decl::Roles(_)
        | Decl::Resource(_) => Ok(()),
    }
}

// Puts the field sets of one declaration at the end.
fn push_shared(shared: &mut Vec<SharedSets>, one: SharedSets) -> Made<()>
    ensures { OnOk result (shared.new.items ≡ shared.old.items ++ one ∷ []) }
{
    shared.push(one)?;
    Ok(())
}

// The field sets of these types in the declaration with the number `i`.
fn sets_in(alloc: Global, content: &Content, i: u32, types: &[Expr]) -> Resolved<Items<AtomSet>>
    requires { IsTrue (all_true (map lacks_sets content.now.channels)) }
    ensures { Answers (λ (sets : List (List Atom)). sets) result
        (meant.told_in i (meant.field_sets content.now types.now)) }
{
    match field_sets(alloc, content, types) {
        Ok(sets) => Ok(sets),
        Err(Stop::Told(kind)) => { Err(Stop::Told(ResolveFault::Value { inside: i, kind })) }
        Err(Stop::NoMemory) => Err(Stop::NoMemory),
    }
}

/// Gives the channels these field sets, and makes the event table, unless there are too many events.
pub fn fill_table(alloc: Global, content: &mut Content, shared: &[SharedSets]) -> Resolved<()>
    requires { length content.old.channels ≤ MOST_BYTES }
    ensures { Answers (λ (done : Unit {0}). content.new) result (meant.with_table content.old (spread shared.now)) }
{
    let count = event_count(shared);
    if count > MOST_EVENTS {
        return Err(Stop::Told(ResolveFault::EventLimit { count }));
    }
    fill_events(alloc, content, shared)?;
    Ok(())
}
