//! What the names of a script stand for: declared names, bound names, and where the bodies of definitions end.
#![tactic(auto)]

pub mod declared;
pub mod dictionary;
pub mod ends;
pub mod meanings;
pub mod name_set;
mod numbers;
pub mod scope;

pub use declared::dictionary_of;
pub use dictionary::Dictionary;
pub use meanings::{Meanings, kind_at};
pub use name_set::NameSet;
pub use scope::Scope;
