//! Symbols of a text: the longest one that fits.

ghost use Rattle.std.specs.Prelude.{◌≡◌, ◌<◌, ◌≤◌, nat_eq, if◌then◌else◌, [], ◌∷◌, length, IfSome, Some};
ghost use Rattle.std.specs.List.{starts_with};
ghost use Rattle.csp_lexer.specs.Symbols.{IsLongest, longest_symbol, symbol_at};
ghost use Rattle.csp_text.specs.Written.{symbol_text};

use csp_text::{Symbol, symbol_text};

// Whether the text begins with the byte.
fn begins_with(text: &[u8], byte: u8) -> bool
    ensures { result ≡ starts_with nat_eq text.now (byte ∷ []) }
{
    match text.split_first() {
        Some((first, _)) => *first == byte,
        None => false,
    }
}

// The longer symbol where it fits, else the shorter one.
fn longer_where(fits: bool, longer: Symbol, shorter: Option<Symbol>) -> Option<Symbol>
    ensures { result ≡ if fits then Some longer else shorter }
{
    if fits { Some(longer) } else { shorter }
}

// The longest symbol that begins with a bar and goes on with the rest.
#[tactic(auto, unfolding(crate::specs::Symbols::longest_symbol))]
fn symbol_from_bar(rest: &[u8]) -> Option<Symbol>
    ensures { result ≡ longest_symbol (124 ∷ rest.now) }
{
    let bar = Some(Symbol::Bar);
    let two = longer_where(begins_with(rest, b'}'), Symbol::CloseProduct, bar);
    let other_two = longer_where(begins_with(rest, b'|'), Symbol::Parallel, two);
    longer_where(rest.starts_with(b"~|"), Symbol::InternalChoice, other_two)
}

// The longest symbol that begins with an opening bracket and goes on with the rest.
#[tactic(auto, unfolding(crate::specs::Symbols::longest_symbol))]
fn symbol_from_bracket(rest: &[u8]) -> Option<Symbol>
    ensures { result ≡ longest_symbol (91 ∷ rest.now) }
{
    let bracket = Some(Symbol::OpenBracket);
    let shorter = longer_where(begins_with(rest, b'['), Symbol::OpenRename, bracket);
    longer_where(begins_with(rest, b']'), Symbol::ExternalChoice, shorter)
}

// The longest symbol that begins with `<` and goes on with the rest.
#[tactic(auto, unfolding(crate::specs::Symbols::longest_symbol))]
fn symbol_from_less(rest: &[u8]) -> Option<Symbol>
    ensures { result ≡ longest_symbol (60 ∷ rest.now) }
{
    let less = Some(Symbol::Less);
    let shorter = longer_where(begins_with(rest, b'='), Symbol::LessEqual, less);
    longer_where(begins_with(rest, b'-'), Symbol::LeftArrow, shorter)
}

// The symbol of two bytes where the rest begins with the second, else that of one byte.
fn one_or_two(rest: &[u8], second: u8, one: Symbol, two: Symbol) -> Option<Symbol>
    ensures { result ≡ if starts_with nat_eq rest.now (second ∷ []) then Some two else Some one }
{
    longer_where(begins_with(rest, second), two, Some(one))
}

// The longest symbol that begins with the byte and goes on with the rest.
#[tactic(auto, unfolding(crate::specs::Symbols::longest_symbol))]
fn symbol_from(first: u8, rest: &[u8]) -> Option<Symbol>
    ensures { result ≡ longest_symbol (first ∷ rest.now) }
{
    match first {
        b'|' => symbol_from_bar(rest),
        b'[' => symbol_from_bracket(rest),
        b'<' => symbol_from_less(rest),
        b'-' => one_or_two(rest, b'>', Symbol::Minus, Symbol::Arrow),
        b'.' => one_or_two(rest, b'.', Symbol::Dot, Symbol::DotDot),
        b']' => one_or_two(rest, b']', Symbol::CloseBracket, Symbol::CloseRename),
        b'{' => one_or_two(rest, b'|', Symbol::OpenBrace, Symbol::OpenProduct),
        b'=' => one_or_two(rest, b'=', Symbol::Defines, Symbol::Equal),
        b'!' => one_or_two(rest, b'=', Symbol::Bang, Symbol::NotEqual),
        b'>' => one_or_two(rest, b'=', Symbol::Greater, Symbol::GreaterEqual),
        b'?' => Some(Symbol::Question),
        b':' => Some(Symbol::Colon),
        b'@' => Some(Symbol::At),
        b'+' => Some(Symbol::Plus),
        b'*' => Some(Symbol::Star),
        b'/' => Some(Symbol::Slash),
        b'%' => Some(Symbol::Percent),
        b'(' => Some(Symbol::OpenParen),
        b')' => Some(Symbol::CloseParen),
        b'}' => Some(Symbol::CloseBrace),
        b',' => Some(Symbol::Comma),
        b'&' => Some(Symbol::Ampersand),
        b'\\' => Some(Symbol::Backslash),
        b';' => Some(Symbol::Semicolon),
        _ => None,
    }
}

// The symbol in front of the text, which begins with its first byte.
#[tactic(auto, unfolding(crate::specs::Symbols::longest_symbol))]
fn symbol_in_front(text: &[u8]) -> Option<Symbol>
    ensures { result ≡ longest_symbol text.now }
{
    match text.split_first() {
        Some((first, rest)) => symbol_from(*first, rest),
        None => None,
    }
}

// The longest symbol that the text begins with.
#[tactic(auto, using(crate::proofs::SymbolsLemmas::found_fits, crate::proofs::SymbolsLemmas::found_longest))]
fn longest_symbol(text: &[u8]) -> Option<Symbol>
    ensures value { result ≡ longest_symbol text.now }
    ensures longest { IsLongest text.now result }
    ensures within { IfSome result (λ symbol.
        (0 < length (symbol_text symbol)) × (length (symbol_text symbol) ≤ length text.now)) }
{
    symbol_in_front(text)
}

// The symbol that the text begins with. On the line of an assertion each bracket is a symbol by itself.
#[tactic(auto, unfolding(crate::specs::Symbols::symbol_at))]
pub(crate) fn symbol_at(on_line: bool, text: &[u8]) -> Option<Symbol>
    ensures value { result ≡ symbol_at on_line text.now }
    ensures within { IfSome result (λ symbol.
        (0 < length (symbol_text symbol)) × (length (symbol_text symbol) ≤ length text.now)) }
{
    if on_line {
        if text.starts_with(b"[") {
            return Some(Symbol::OpenBracket);
        }
        if text.starts_with(b"]") {
            return Some(Symbol::CloseBracket);
        }
    }
    longest_symbol(text)
}
