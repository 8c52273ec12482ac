//! The parts of a script's text: its tokens, the trees that they spell, and why a text is no script.
#![tactic(auto)]

pub mod fault;
pub mod script;
pub mod token;
pub mod tree;
pub mod written;

pub use fault::NoScript;
pub use script::{Decl, Script};
pub use token::{ResourceNames, RolesNames, Symbol, Token, Word};
pub use tree::{EventTree, FieldTree, GenTree, PartTree, Tree};
pub use written::{symbol_text, word_text};
