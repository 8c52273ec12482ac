//! The program of a script.

ghost use Rattle.std.specs.Prelude.{◌≡◌, ◌≤◌, IsTrue, Some, length, map, IfOk};
ghost use Rattle.std.specs.Option.{option_copied};
ghost use Rattle.csp_program.specs.Prelude.{IsInOrder, lacks_sets, all_true};
ghost use Rattle.csp_program.specs.declared.programs.Content.{Content};
ghost use Rattle.csp_resolve.specs.Answers.{Answers, types_read};
ghost use Rattle.dl_limits.specs.declared.TheConstants.{MOST_BYTES};
ghost use Rattle.name_tables.specs.Firsts.{SameFirsts};
ghost use Rattle.script_names.specs.Contents as contents;
ghost use Rattle.script_names.specs.Prelude.{declared, first_of, and_next};
ghost use Rattle.script_names.specs.Resolved as meant;
ghost use Rattle.script_sizes.specs.Size.{AreSmall, size};

use crate::events::{channel_sets, fill_table};
use containers::{Boxed, Key};
use csp_base::{Made, Stop};
use csp_program::{Content, Program};
use csp_text::{Decl, Script, Tree};
use definition_kinds::kinds_of;
use name_faults::name_fault;
use name_tables::{Dictionary, Meanings, dictionary_of};
use resolved_laws::programs_are_in_order;
use script_contents::plain_content;
use script_names::ResolveFault;
use std::alloc::Global;

// What was made, or why there is no program.
pub(crate) type Resolved<T> = Result<T, Stop<ResolveFault>>;

// The program on the heap, where it ends in a function of its own.
fn box_program(alloc: Global, program: Program) -> Made<Boxed<Program>>
    ensures { IfOk result (λ made. made ≡ program) }
{
    Boxed::new(alloc, program)
}

/// The program of a script. A fault is told exactly where the script has no program, and it is the first in this order: no deadlock assertion, a name
/// fault, a type of a channel without a value that fits, too many events. The script is small, as each is that a text within the limit spells: 32 bits
/// number all that it declares. Names are found under this key, which the text of the script makes.
pub fn resolve(
    alloc: Global,
    key: Key,
    script: &Script,
) -> Result<Boxed<Program>, Stop<ResolveFault>>
    requires small { AreSmall script.now.decls }
    ensures { meant.Resolves script.now result }
{
    let names = dictionary_of(alloc, key, script.decls.as_slice())?;
    let content = content_of(alloc, script, &names)?;
    let program = box_program(alloc, Program::new(content, key))?;
    Ok(program)
}

// What the program of a script holds whose names stand for what `names` says.
fn content_of(alloc: Global, script: &Script, names: &Dictionary) -> Resolved<Content>
    requires small { AreSmall script.now.decls }
    requires names { SameFirsts names.now (declared script.now.decls) }
    ensures resolves { meant.Resolves script.now result }
    ensures in_order { IfOk result IsInOrder }
{
    programs_are_in_order();
    let decls = script.decls.as_slice();
    let kinds = kinds_of(alloc, decls, names)?;
    let meanings = Meanings {
        alloc,
        names,
        kinds: kinds.as_slice(),
    };
    let content = content_by_names(&meanings, decls)?;
    Ok(content)
}

// What the program of declarations holds whose names and definitions mean what `meanings` says.
fn content_by_names(meanings: &Meanings<'_>, decls: &[Decl]) -> Resolved<Content>
    requires small { AreSmall decls.now }
    requires names { SameFirsts meanings.now.names.now (declared decls.now) }
    ensures { Answers (λ (p : Content). p) result (meant.resolved decls.now meanings.now.kinds.now) }
{
    let Some(root) = first_assertion(decls) else {
        return Err(Stop::Told(ResolveFault::NoAssert));
    };
    match name_fault(meanings, decls)? {
        Some(fault) => Err(Stop::Told(fault)),
        None => {
            let content = plain_content(meanings, decls, root)?;
            with_events(meanings, decls, content)
        }
    }
}

// The first name or call that is asserted.
fn first_assertion(decls: &[Decl]) -> Option<&Tree>
    ensures { option_copied result ≡ contents.first_assertion decls.now }
{
    for decl in decls {
        if let Decl::Assert(tree) = decl {
            return Some(tree);
        }
    }
    None
}

// What a program holds, with the field sets of its channels and its event table.
fn with_events(meanings: &Meanings<'_>, decls: &[Decl], mut content: Content) -> Resolved<Content>
    requires few { size decls.now ≤ MOST_BYTES }
    requires channels { length content.channels ≤ MOST_BYTES }
    requires plain { IsTrue (all_true (map lacks_sets content.channels)) }
    ensures { Answers (λ (p : Content). p) result
        (and_next (meant.channel_sets content
        (types_read (first_of meanings.now.names.now) meanings.now.kinds.now) 0 decls.now)
        (λ all. meant.with_table content all)) }
{
    match put_events(meanings, decls, &mut content) {
        Ok(()) => Ok(content),
        Err(fault) => {
            drop(content);
            Err(fault)
        }
    }
}

// Gives the channels of a program their field sets, and makes its event table.
fn put_events(meanings: &Meanings<'_>, decls: &[Decl], content: &mut Content) -> Resolved<()>
    requires few { size decls.now ≤ MOST_BYTES }
    requires channels { length content.old.channels ≤ MOST_BYTES }
    requires plain { IsTrue (all_true (map lacks_sets content.old.channels)) }
    ensures { Answers (λ (done : Unit {0}). content.new) result
        (and_next (meant.channel_sets content.old
        (types_read (first_of meanings.now.names.now) meanings.now.kinds.now) 0 decls.now)
        (λ all. meant.with_table content.old all)) }
{
    let shared = channel_sets(meanings, content, decls)?;
    fill_table(meanings.alloc, content, shared.as_slice())?;
    Ok(())
}
