//! The words of a command line.

ghost use Rattle.std.specs.Prelude.{◌≡◌, List, ℕ, [], ◌∷◌, ◌++◌, OnOk, OnErr};

use csp_base::{Bytes, Made};
use std::alloc::Global;
use std::marker::Model;

/// The words of a command line, without the program's own name.
#[derive(Drop)]
pub struct Words {
    alloc: Global,
    words: Vec<Bytes>,
}

impl Model for Words {
    ghost use Rattle.std.specs.Prelude.{List, ℕ};

    ghost Value = { List (List ℕ) };

    ghost view = { λ w. w.words.items };
}

impl Words {
    /// No words.
    pub fn new(alloc: Global) -> Self
        ensures { result ≡ [] }
    {
        Words {
            alloc,
            words: Vec::new(alloc),
        }
    }

    /// Adds a last word. An error changes nothing.
    pub fn push(&mut self, word: &[u8]) -> Made<()>
        ensures ok { OnOk result (self.new ≡ self.old ++ word.now ∷ []) }
        ensures err { OnErr result (self.new ≡ self.old) }
    {
        let word = Bytes::from_slice(self.alloc, word)?;
        self.words.push(word)?;
        Ok(())
    }

    // The words, in their order.
    pub(crate) fn as_slice(&self) -> &[Bytes]
        ensures { result.now ≡ self.now }
    {
        self.words.as_slice()
    }
}
