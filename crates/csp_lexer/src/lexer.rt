//! The lexer: it cuts a text into its tokens.

ghost use Rattle.std.specs.Prelude.{◌≡◌, ◌<◌, ◌≤◌, true, nat_eq, codes, [], length, IsTrue, IfOk, IfErr, IfSome, Ok, Err};
ghost use Rattle.csp_base.specs.Standard.{starts_with, option_copied};
ghost use Rattle.csp_base.specs.Stops.{Tells};
ghost use Rattle.csp_lexer.specs.Prelude.{line_comment, CutTokensAreFound, begins_assertion, front, is_blank, assertion_or_token, lexed, Passed};

use crate::annotations::pass_line;
use crate::assertions::pass_assertion;
use crate::classes::is_space;
use crate::comments::{after_comment, line_len};
use crate::places::{behind_all, text_start};
use crate::scan::{Left, pass_token};
use crate::tokens::Tokens;
use crate::words::word_len;
use csp_base::{Place, Stop};
use csp_text::NoScript;
use std::alloc::Global;

// Whether the byte has no meaning between tokens.
fn is_blank(b: u8) -> bool
    ensures { result ≡ is_blank b }
{
    is_space(b) || b == b'\n'
}

// Whether the text's first word is `assert`.
#[tactic(auto, using(crate::proofs::WordsLemmas::not_asserted), unfolding(crate::specs::Front::begins_assertion))]
fn begins_assertion(text: &[u8]) -> bool
    ensures value { result ≡ begins_assertion text.now }
    ensures long { IsTrue result → 6 ≤ length text.now }
{
    if !text.starts_with(b"as") {
        return false;
    }
    let len = word_len(text);
    let word = &text[..len];
    word == b"assert".as_slice()
}

// Passes the line comment at the front of the text, which may be an annotation.
fn pass_line_comment<'a>(text: &'a [u8], at: Place, found: &mut Tokens) -> Left<'a>
    requires { starts_with nat_eq text.now (codes "--") ≡ true }
    ensures passed { IfOk result (λ left. Passed (line_comment at text.now) found.old found.new (option_copied left)) }
    ensures shorter { IfOk result (λ left. IfSome left (λ left. length left.now < length text.now)) }
{
    let len = line_len(text);
    let left = pass_line(&text[..len], &text[len..], at, found)?;
    Ok(left)
}

// Passes the assertion or the token at the front of the text.
#[tactic(auto, using(std::proofs::lemmas::List::take_rest))]
fn pass_assertion_or_token<'a>(text: &'a [u8], at: Place, found: &mut Tokens) -> Left<'a>
    ensures passed { IfOk result (λ left.
        Passed (assertion_or_token at text.now) found.old found.new (option_copied left)) }
    ensures shorter { IfOk result (λ left. IfSome left (λ left. length left.now < length text.now)) }
{
    if begins_assertion(text) {
        let left = pass_assertion(&text[6..], at, found)?;
        return Ok(Some(left));
    }
    pass_token(false, text, at, found)
}

// Passes the piece at the front of the text. The result is what is left of the text, or `None` where no piece stands there.
#[tactic(auto, using(std::proofs::lemmas::List::take_rest), unfolding(crate::specs::Front::front))]
fn pass_piece<'a>(text: &'a [u8], at: Place, found: &mut Tokens) -> Left<'a>
    requires { 0 < length text.now }
    ensures passed { IfOk result (λ left. Passed (front at text.now) found.old found.new (option_copied left)) }
    ensures shorter { IfOk result (λ left. IfSome left (λ left. length left.now < length text.now)) }
{
    if is_blank(text[0]) {
        return Ok(Some(&text[1..]));
    }
    if text.starts_with(b"--") {
        return pass_line_comment(text, at, found);
    }
    if text.starts_with(b"{-") {
        return Ok(after_comment(&text[2..]));
    }
    pass_assertion_or_token(text, at, found)
}

// Passes the whole text. The result is the place of its end.
fn pass_all(text: &[u8], found: &mut Tokens) -> Result<Place, Stop<NoScript>>
    requires { found.old.placed ≡ [] }
    ensures found { IfOk result (λ end. lexed text.now ≡ Ok (record { placed = found.new.placed; end = end })) }
    ensures none { IfErr result (Tells (λ fault. lexed text.now ≡ Err fault.at)) }
{
    let mut at = text_start();
    let mut rest = text;
    while !rest.is_empty() {
        let Some(left) = pass_piece(rest, at, found)? else {
            return Err(Stop::Told(NoScript { at }));
        };
        at = behind_all(at, &rest[..rest.len() - left.len()]);
        rest = left;
    }
    Ok(at)
}

/// The tokens of the text with their places, or the place where it is no script.
pub fn lex(alloc: Global, text: &[u8]) -> Result<Tokens, Stop<NoScript>>
    // What is found are the tokens of the text.
    ensures found { IfOk result (λ found. lexed text.now ≡ Ok found) }

    // The fault, but for want of memory, is that the text has no tokens; the place is the one where its first piece that is none begins.
    ensures none { IfErr result (Tells (λ fault. lexed text.now ≡ Err fault.at)) }
{
    let mut found = Tokens::new(alloc, text_start());
    let end = pass_all(text, &mut found)?;
    Ok(found.end_at(end))
}

/// A text is cut into exactly the tokens that are found.
pub fn cut_tokens_are_found()
    ensures { CutTokensAreFound }
{}
