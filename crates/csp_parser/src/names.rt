//! Lists of names.

ghost use Rattle.std.specs.Prelude.{◌<◌, ◌≤◌, ◌+◌, ◌*◌, length, IfOk};
ghost use Rattle.tree_parser.specs.Reads.{Reads, part_read};
ghost use Rattle.tree_reading.specs.Limited.{read_parameters};

use containers::Items;
use csp_base::Name;
use csp_text::{Symbol, Token};
use std::alloc::Global;
use tree_reading::look::{expect, expect_name, skip};
use tree_reading::read::{Read, Reading};

// One name or more, with the sign between them.
pub(crate) fn names(alloc: Global, sign: Symbol, tokens: &[Token]) -> Reading<'_, Items<Name>>
    ensures reads { Reads result part_read (8 * length tokens.now + 1) (λ L. L.names sign tokens.now) }
    ensures shorter { IfOk result (λ r. length r.rest.now < length tokens.now) }
{
    let mut all = Items::new(alloc);
    let mut rest = tokens;
    loop {
        let found = match expect_name(alloc, rest) {
            Ok(found) => found,
            Err(fault) => return Err(fault),
        };
        let (name, behind) = found;
        all.push(name)?;
        match skip(behind, sign) {
            Some(next) => rest = next,
            None => {
                return Ok(Read {
                    part: all,
                    rest: behind,
                });
            }
        }
    }
}

// The parameters of a definition: names in parentheses, or nothing.
pub(crate) fn parameters(alloc: Global, tokens: &[Token]) -> Reading<'_, Items<Name>>
    ensures reads { Reads result part_read (8 * length tokens.now) (λ L. read_parameters L tokens.now) }
    ensures shorter { IfOk result (λ r. length r.rest.now ≤ length tokens.now) }
{
    let Some(inside) = skip(tokens, Symbol::OpenParen) else {
        return Ok(Read {
            part: Items::new(alloc),
            rest: tokens,
        });
    };
    let listed = names(alloc, Symbol::Comma, inside)?;
    let rest = expect(listed.rest, Symbol::CloseParen)?;
    Ok(Read {
        part: listed.part,
        rest,
    })
}
