//! The token at the front of a text, which is passed.

ghost use Rattle.std.specs.Prelude.{◌≡◌, ◌+◌, ◌-◌, ◌*◌, ◌<◌, ◌≤◌, length, IfOk, IfSome, Some};
ghost use Rattle.std.specs.Option.{option_copied};
ghost use Rattle.csp_lexer.specs.Prelude.{Passed, one_at, one_before, number_token, symbol_with_len, token_at, word_token};
ghost use Rattle.csp_text.specs.Written.{symbol_text};

use crate::classes::{Class, bytes_of};
use crate::symbols::symbol_at;
use crate::tokens::Tokens;
use crate::words::{is_foreign, is_plain, reserved_word, word_len};
use csp_base::{Made, Name, Place};
use csp_text::{Symbol, Token, symbol_text};
use dl_limits::GREATEST_NUMBER;
use std::alloc::Global;

// What is left of the text behind a piece, or `None` where none stands in front.
pub(crate) type Left<'a> = Made<Option<&'a [u8]>>;

// The number that the digits are, or `None` where it is too great.
fn number_token(digits: &[u8]) -> Option<Token>
    ensures { result ≡ number_token digits.now }
{
    let mut number = 0;
    for digit in digits {
        number = number * 10 + u32::from(digit.saturating_sub(b'0'));
        if number > GREATEST_NUMBER {
            return None;
        }
    }
    Some(Token::Num(number))
}

// The token that the word is, or `None` where only a larger language has it.
fn word_token(alloc: Global, word: &[u8]) -> Made<Option<Token>>
    ensures { IfOk result (λ found. found ≡ word_token word.now) }
{
    if !is_plain(word) {
        if let Some(reserved) = reserved_word(word) {
            return Ok(Some(Token::Word(reserved)));
        }
        if is_foreign(word) {
            return Ok(None);
        }
    }
    let name = Name::from_slice(alloc, word)?;
    Ok(Some(Token::Name(name)))
}

// Adds the token, if there is one, and leaves the rest.
pub(crate) fn pass_one<'a>(
    token: Option<Token>,
    at: Place,
    rest: &'a [u8],
    found: &mut Tokens,
) -> Left<'a>
    ensures passed { IfOk result (λ left.
        Passed (one_before at rest.now token) found.old found.new (option_copied left)) }
    ensures same { IfOk result (λ left. IfSome left (λ left. left.now ≡ rest.now)) }
{
    let Some(token) = token else {
        return Ok(None);
    };
    found.push(token, at)?;
    Ok(Some(rest))
}

// Adds the symbol, which the text begins with, and leaves what follows it.
#[tactic(auto, using(std::proofs::lemmas::List::take_rest))]
fn pass_symbol<'a>(symbol: Symbol, at: Place, text: &'a [u8], found: &mut Tokens) -> Left<'a>
    requires has_byte { 0 < length (symbol_text symbol) }
    requires within { length (symbol_text symbol) ≤ length text.now }
    ensures passed { IfOk result (λ left.
        Passed (one_at at text.now (symbol_with_len (Some symbol))) found.old found.new (option_copied left)) }
    ensures shorter { IfOk result (λ left. IfSome left (λ left. length left.now < length text.now)) }
{
    found.push(Token::Symbol(symbol), at)?;
    Ok(Some(&text[symbol_text(symbol).len()..]))
}

// Passes the token at the front of the text, on the line of an assertion or elsewhere.
#[tactic(auto, using(std::proofs::lemmas::List::take_rest, crate::proofs::PieceLemmas::one_with_len), unfolding(crate::specs::Tokens::token_at, crate::specs::Tokens::digits_len))]
pub(crate) fn pass_token<'a>(
    on_line: bool,
    text: &'a [u8],
    at: Place,
    found: &mut Tokens,
) -> Left<'a>
    ensures passed { IfOk result (λ left.
        Passed (one_at at text.now (token_at on_line text.now)) found.old found.new (option_copied left)) }
    ensures shorter { IfOk result (λ left. IfSome left (λ left. length left.now < length text.now)) }
{
    let word = word_len(text);
    if 0 < word {
        let token = word_token(found.alloc(), &text[..word])?;
        return pass_one(token, at, &text[word..], found);
    }
    let digits = bytes_of(Class::Digit, text);
    if 0 < digits {
        let token = number_token(&text[..digits]);
        return pass_one(token, at, &text[digits..], found);
    }
    match symbol_at(on_line, text) {
        Some(symbol) => pass_symbol(symbol, at, text, found),
        None => Ok(None),
    }
}
