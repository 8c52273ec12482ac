//! How words and symbols are written.

ghost use Rattle.std.specs.Prelude.{◌≡◌};
ghost use Rattle.csp_text.specs.Written.{symbol_text, word_text};

use crate::token::{Symbol, Word};

/// The bytes of the word as it stands in a text.
pub fn word_text(word: Word) -> &'static [u8]
    ensures { result.now ≡ word_text word }
{
    match word {
        Word::And => b"and",
        Word::Assert => b"assert",
        Word::Channel => b"channel",
        Word::Datatype => b"datatype",
        Word::Diff => b"diff",
        Word::Else => b"else",
        Word::False => b"false",
        Word::If => b"if",
        Word::Inter => b"inter",
        Word::Nametype => b"nametype",
        Word::Not => b"not",
        Word::Or => b"or",
        Word::Then => b"then",
        Word::True => b"true",
        Word::Union => b"union",
        Word::Stop => b"STOP",
        Word::Skip => b"SKIP",
    }
}

/// The bytes of the symbol as it stands in a text.
pub fn symbol_text(symbol: Symbol) -> &'static [u8]
    ensures { result.now ≡ symbol_text symbol }
{
    match symbol {
        Symbol::Arrow => b"->",
        Symbol::ExternalChoice => b"[]",
        Symbol::InternalChoice => b"|~|",
        Symbol::Parallel => b"||",
        Symbol::OpenRename => b"[[",
        Symbol::CloseRename => b"]]",
        Symbol::OpenProduct => b"{|",
        Symbol::CloseProduct => b"|}",
        Symbol::LeftArrow => b"<-",
        Symbol::DotDot => b"..",
        Symbol::Dot => b".",
        Symbol::Bang => b"!",
        Symbol::Question => b"?",
        Symbol::Colon => b":",
        Symbol::At => b"@",
        Symbol::Defines => b"=",
        Symbol::Equal => b"==",
        Symbol::NotEqual => b"!=",
        Symbol::Less => b"<",
        Symbol::LessEqual => b"<=",
        Symbol::Greater => b">",
        Symbol::GreaterEqual => b">=",
        Symbol::Plus => b"+",
        Symbol::Minus => b"-",
        Symbol::Star => b"*",
        Symbol::Slash => b"/",
        Symbol::Percent => b"%",
        Symbol::OpenParen => b"(",
        Symbol::CloseParen => b")",
        Symbol::OpenBrace => b"{",
        Symbol::CloseBrace => b"}",
        Symbol::OpenBracket => b"[",
        Symbol::CloseBracket => b"]",
        Symbol::Comma => b",",
        Symbol::Ampersand => b"&",
        Symbol::Bar => b"|",
        Symbol::Backslash => b"\\",
        Symbol::Semicolon => b";",
    }
}
