//! The form of a deadlock assertion among its tokens.

ghost use Rattle.std.specs.Prelude.{◌≡◌, ◌+◌, ◌<◌, ◌≤◌, ◌^◌, List, ◌∷◌};
ghost use Rattle.std.specs.Option.{option_copied};
ghost use Rattle.csp_text.specs.declared.token.Token.{Token as TokenValue};
ghost use Rattle.csp_lexer.specs.Prelude.{after_arguments, after_call, after_closing, is_closed, is_deadlock_assertion, is_deadlock_free};

use csp_text::{Symbol, Token};

// Whether the tokens close the bracket of `[ deadlock free`, with a model or without.
#[tactic(auto, unfolding(crate::specs::AssertionPieces::is_closed))]
fn is_closed(tokens: &[Token]) -> bool
    ensures { result ≡ is_closed tokens.now }
{
    match tokens {
        [close] => matches!(close, Token::Symbol(Symbol::CloseBracket)),
        [open, model, close, last] => match (open, model, close, last) {
            (
                Token::Symbol(Symbol::OpenBracket),
                Token::Name(model),
                Token::Symbol(Symbol::CloseBracket),
                Token::Symbol(Symbol::CloseBracket),
            ) => model.as_slice() == b"F".as_slice() || model.as_slice() == b"FD".as_slice(),
            _ => false,
        },
        _ => false,
    }
}

// Whether the tokens say that what stands before them is free of deadlock.
#[tactic(auto, unfolding(crate::specs::AssertionPieces::is_deadlock_free))]
fn is_deadlock_free(tokens: &[Token]) -> bool
    ensures { result ≡ is_deadlock_free tokens.now }
{
    match tokens {
        [colon, open, deadlock, free, rest @ ..] => match (colon, open, deadlock, free) {
            (
                Token::Symbol(Symbol::Colon),
                Token::Symbol(Symbol::OpenBracket),
                Token::Name(deadlock),
                Token::Name(free),
            ) => {
                deadlock.as_slice() == b"deadlock".as_slice()
                    && free.as_slice() == b"free".as_slice()
                    && is_closed(rest)
            }
            _ => false,
        },
        _ => false,
    }
}

// How many parentheses are open behind the token.
#[tactic(auto, unfolding(crate::specs::Assertions::after_closing))]
fn open_behind(nested: usize, token: &Token) -> usize
    requires positive { 0 < nested }
    requires bounded { nested + 1 < 2 ^ 64 }
    ensures value { (tokens : List TokenValue) → after_closing result tokens
        ≡ after_closing nested (token.now ∷ tokens) }
    ensures bounded { result ≤ nested + 1 }
{
    match token {
        Token::Symbol(Symbol::OpenParen) => nested + 1,
        Token::Symbol(Symbol::CloseParen) => nested - 1,
        _ => nested,
    }
}

// What follows once the parenthesis is closed that is open before the tokens.
fn after_closing(tokens: &[Token]) -> Option<&[Token]>
    ensures { option_copied result ≡ after_closing 1 tokens.now }
{
    let mut nested = 1;
    let mut rest = tokens;
    while 0 < nested {
        let Some((first, left)) = rest.split_first() else {
            return None;
        };
        nested = open_behind(nested, first);
        rest = left;
    }
    Some(rest)
}

// What follows the arguments at the front, where there are some.
#[tactic(auto, unfolding(crate::specs::AssertionPieces::after_arguments))]
fn after_arguments(tokens: &[Token]) -> Option<&[Token]>
    ensures { option_copied result ≡ after_arguments tokens.now }
{
    match tokens.split_first() {
        Some((Token::Symbol(Symbol::OpenParen), rest)) => after_closing(rest),
        _ => Some(tokens),
    }
}

// What follows the name at the front and its arguments.
#[tactic(auto, unfolding(crate::specs::AssertionPieces::after_call))]
fn after_call(tokens: &[Token]) -> Option<&[Token]>
    ensures { option_copied result ≡ after_call tokens.now }
{
    match tokens.split_first() {
        Some((Token::Name(_), rest)) => after_arguments(rest),
        _ => None,
    }
}

// Whether the tokens assert that a process is free of deadlock.
pub(crate) fn is_deadlock_assertion(tokens: &[Token]) -> bool
    ensures { result ≡ is_deadlock_assertion tokens.now }
{
    match after_call(tokens) {
        Some(rest) => is_deadlock_free(rest),
        None => false,
    }
}
