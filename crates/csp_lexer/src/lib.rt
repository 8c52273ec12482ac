//! The lexer: the tokens of a text, with their places.
//!
//! A text is cut from the left, so it has one cut at most. A comment is looked for only where a piece begins: `a<--1` is `<-`, `-`, `1`. In the
//! rest of an assertion's line the first `--` or `{-` ends it, whatever the symbols; `assert` is a token there, and each `[` and `]` is one by
//! itself. The place of an annotation is that of its `--`. Lines and columns stop at the end of their type.
#![tactic(auto)]

mod annotations;
mod assertions;
mod classes;
mod comments;
mod forms;
mod lexer;
mod line;
mod places;
mod scan;
mod symbols;
pub mod tokens;
mod words;

pub use lexer::{cut_tokens_are_found, lex};
pub use tokens::Tokens;
