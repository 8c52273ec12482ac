//! Tokens: the smallest parts of a script that have a meaning.

use containers::Boxed;
use csp_base::Name;

/// A part of a script. Blanks and comments stand between tokens and have no meaning.
///
/// The names of an annotation, which are rare, are on the heap, so that a token is small.
pub enum Token {
    /// A name that the script gives.
    Name(Name),
    /// A number as it is written, at most 1,000,000.
    Num(u32),
    /// A word that the language reserves.
    Word(Word),
    /// A symbol of the language.
    Symbol(Symbol),
    /// `--@ roles` and five names.
    Roles(Boxed<RolesNames>),
    /// `--@ resource` and three names.
    Resource(Boxed<ResourceNames>),
}

impl Drop for Token {
    fn drop(self) {
        match self {
            Token::Name(_) => {}
            Token::Num(_) => {}
            Token::Word(_) => {}
            Token::Symbol(_) => {}
            Token::Roles(_) => {}
            Token::Resource(_) => {}
        }
    }
}

/// The names of an annotation that gives a process its roles of client and server.
pub struct RolesNames {
    /// The process.
    pub process: Name,
    /// The definition of its requests as a client.
    pub creq: Name,
    /// The definition of the acknowledgements that it takes as a client.
    pub cack: Name,
    /// The definition of the requests that it takes as a server.
    pub sreq: Name,
    /// The definition of its acknowledgements as a server.
    pub sack: Name,
}

impl Drop for RolesNames {
    fn drop(self) {
        let RolesNames {
            process,
            creq,
            cack,
            sreq,
            sack,
        } = self;
    }
}

/// The names of an annotation that makes a process a resource.
pub struct ResourceNames {
    /// The process.
    pub process: Name,
    /// The definition of the events by which it is acquired.
    pub acquire: Name,
    /// The definition of the events by which it is released.
    pub release: Name,
}

impl Drop for ResourceNames {
    fn drop(self) {
        let ResourceNames {
            process,
            acquire,
            release,
        } = self;
    }
}

/// The reserved words of the language. `word_text` says how each is written.
#[derive(Clone, Copy, PartialEq, Eq)]
pub enum Word {
    And,
    Assert,
    Channel,
    Datatype,
    Diff,
    Else,
    False,
    If,
    Inter,
    Nametype,
    Not,
    Or,
    Then,
    True,
    Union,
    Stop,
    Skip,
}

/// The symbols of the language. `symbol_text` says how each is written.
#[derive(Clone, Copy, PartialEq, Eq)]
pub enum Symbol {
    Arrow,
    ExternalChoice,
    InternalChoice,
    Parallel,
    OpenRename,
    CloseRename,
    OpenProduct,
    CloseProduct,
    LeftArrow,
    DotDot,
    Dot,
    Bang,
    Question,
    Colon,
    At,
    Defines,
    Equal,
    NotEqual,
    Less,
    LessEqual,
    Greater,
    GreaterEqual,
    Plus,
    Minus,
    Star,
    Slash,
    Percent,
    OpenParen,
    CloseParen,
    OpenBrace,
    CloseBrace,
    OpenBracket,
    CloseBracket,
    Comma,
    Ampersand,
    Bar,
    Backslash,
    Semicolon,
}
