//! Assertions.

ghost use Rattle.std.specs.Prelude.{◌≡◌, ◌++◌, ◌∷◌, ◌≤◌, length, IfOk, OnOk, Ok, Some};
ghost use Rattle.csp_lexer.specs.Prelude.{asserted, assertion, Passed};
ghost use Rattle.csp_text.specs.declared.token.Token.TheVariants as token;
ghost use Rattle.csp_text.specs.declared.token.Word.TheVariants.{Assert};

use crate::forms::is_deadlock_assertion;
use crate::line::{cut_line, rest_len};
use crate::places::behind_all;
use crate::tokens::Tokens;
use csp_base::{Made, Place};
use csp_text::{Token, Word};

// Adds the word at this place and the tokens of its line.
fn add_assertion(at: Place, line: Tokens, found: &mut Tokens) -> Made<()>
    ensures { OnOk result (found.new.placed ≡ found.old.placed ++ (token.Word Assert, at) ∷ line.placed) }
{
    found.push(Token::Word(Word::Assert), at)?;
    found.append(line)
}

// Adds the tokens of an assertion's line and the word before them, where they assert that a process is free of deadlock.
fn add_line<'a>(at: Place, rest: &'a [u8], line: Tokens, found: &mut Tokens) -> Made<&'a [u8]>
    ensures passed { IfOk result (λ left.
        Passed (Some (asserted at rest.now (Ok line))) found.old found.new (Some left.now)) }
    ensures same { IfOk result (λ left. left.now ≡ rest.now) }
{
    if !is_deadlock_assertion(line.as_slice()) {
        return Ok(rest);
    }
    add_assertion(at, line, found)?;
    Ok(rest)
}

// Passes what follows the word `assert`, which stands at this place.
#[tactic(auto, using(std::proofs::lemmas::List::take_rest), unfolding(crate::specs::AssertionPieces::assertion))]
pub(crate) fn pass_assertion<'a>(text: &'a [u8], at: Place, found: &mut Tokens) -> Made<&'a [u8]>
    ensures passed { IfOk result (λ left. Passed (Some (assertion at text.now)) found.old found.new (Some left.now)) }
    ensures within { IfOk result (λ left. length left.now ≤ length text.now) }
{
    let len = rest_len(text);
    let rest = &text[len..];
    let Some(line) = cut_line(found.alloc(), &text[..len], behind_all(at, b"assert"))? else {
        return Ok(rest);
    };
    add_line(at, rest, line, found)
}
