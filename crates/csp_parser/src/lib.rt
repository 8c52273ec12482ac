//! The parser of scripts: the script that a list of tokens is, and the script that a text spells.
#![tactic(auto)]

mod assertion;
mod declarations;
mod declared;
mod names;
mod parser;
mod types;

pub use parser::{each_text_spells_one_script, parse, read, spelled_scripts_are_small};
