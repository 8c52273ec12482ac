//! Declarations of channels, types and processes.

ghost use Rattle.std.specs.Prelude.{◌<◌, ◌+◌, ◌*◌, length, IfOk};
ghost use Rattle.tree_parser.specs.Reads.{Reads, part_read};
ghost use Rattle.tree_reading.specs.Limited.{read_channel, read_datatype, read_definition, read_nametype};

use crate::names::{names, parameters};
use crate::types::{WHOLE, types};
use containers::Items;
use csp_base::Name;
use csp_text::{Decl, Symbol, Token};
use std::alloc::Global;
use tree_parser::{atom, tree};
use tree_reading::look::{expect, expect_name, skip};
use tree_reading::read::{Read, Reading};

// The channels behind `channel`, with the types of their fields.
pub(crate) fn channel(alloc: Global, tokens: &[Token]) -> Reading<'_, Decl>
    ensures reads { Reads result part_read (8 * length tokens.now + 1) (λ L. read_channel L tokens.now) }
    ensures shorter { IfOk result (λ r. length r.rest.now < length tokens.now) }
{
    let channels = names(alloc, Symbol::Comma, tokens)?;
    match skip(channels.rest, Symbol::Colon) {
        Some(behind) => {
            let fields = types(alloc, behind)?;
            Ok(Read {
                part: Decl::Channel(channels.part, fields.part),
                rest: fields.rest,
            })
        }
        None => Ok(Read {
            part: Decl::Channel(channels.part, Items::new(alloc)),
            rest: channels.rest,
        }),
    }
}

// The name of a type and its values, behind `datatype`.
pub(crate) fn datatype(alloc: Global, tokens: &[Token]) -> Reading<'_, Decl>
    ensures reads { Reads result part_read (8 * length tokens.now + 1) (λ L. read_datatype L tokens.now) }
    ensures shorter { IfOk result (λ r. length r.rest.now < length tokens.now) }
{
    let (name, behind) = expect_name(alloc, tokens)?;
    let defined = expect(behind, Symbol::Defines)?;
    let values = names(alloc, Symbol::Bar, defined)?;
    Ok(Read {
        part: Decl::Datatype(name, values.part),
        rest: values.rest,
    })
}

// The name of a set and the set, behind `nametype`.
pub(crate) fn nametype(alloc: Global, tokens: &[Token]) -> Reading<'_, Decl>
    ensures reads { Reads result part_read (8 * length tokens.now + 1) (λ L. read_nametype L tokens.now) }
    ensures shorter { IfOk result (λ r. length r.rest.now < length tokens.now) }
{
    let (name, behind) = expect_name(alloc, tokens)?;
    let defined = expect(behind, Symbol::Defines)?;
    let set = atom(alloc, WHOLE, defined)?;
    Ok(Read {
        part: Decl::Nametype(name, set.part.unbox().into_inner()),
        rest: set.rest,
    })
}

// The definition of this name, behind it.
pub(crate) fn definition<'t>(
    alloc: Global,
    defined: &Name,
    tokens: &'t [Token],
) -> Reading<'t, Decl>
    ensures reads { Reads result part_read (8 * length tokens.now + 1) (λ L. read_definition L defined.now tokens.now) }
    ensures shorter { IfOk result (λ r. length r.rest.now < length tokens.now) }
{
    let name = defined.try_clone(alloc)?;
    let taken = parameters(alloc, tokens)?;
    let behind = expect(taken.rest, Symbol::Defines)?;
    let body = tree(alloc, WHOLE, behind)?;
    Ok(Read {
        part: Decl::Define(name, taken.part, body.part.unbox().into_inner()),
        rest: body.rest,
    })
}
