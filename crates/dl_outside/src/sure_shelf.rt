//! A shelf in memory whose loads never fail.

ghost use Rattle.std.specs.Prelude.{◌≡◌, [], Some, OnOk, OnErr};
ghost use Rattle.std.specs.Option.{option_copied};
ghost use Rattle.dl_outside.specs.Prelude.{AnswersTold, IsTextOf, PutsText, text_of};

use crate::shelf::{LoadFault, Shelf};
use crate::texts::{NamedText, copy_text, find_text, put_text};
use csp_base::{Bytes, Made};
use std::alloc::Global;
use std::marker::Model;

/// Texts in memory.
#[derive(Drop)]
pub struct SureShelf {
    texts: Vec<NamedText>,
}

impl Model for SureShelf {
    ghost use Rattle.std.specs.Prelude.{List};
    ghost use Rattle.dl_outside.specs.declared.texts.NamedText.{NamedText};

    ghost Value = { List NamedText };

    ghost view = { λ s. s.texts.items };
}

impl SureShelf {
    /// An empty shelf.
    pub fn new(alloc: Global) -> Self
        ensures { result ≡ [] }
    {
        SureShelf {
            texts: Vec::new(alloc),
        }
    }

    /// Puts a text under a name, in the place of one that is held under it.
    pub fn put_text(&mut self, name: &[u8], bytes: &[u8]) -> Made<()>
        ensures ok { OnOk result (PutsText self.old self.new name.now bytes.now) }
        ensures err { OnErr result (self.new ≡ self.old) }
    {
        let alloc = *self.texts.allocator();
        put_text(alloc, &mut self.texts, name, bytes)
    }

    /// The text of this name.
    pub fn text(&self, name: &[u8]) -> Option<&[u8]>
        ensures { option_copied result ≡ text_of self.now name.now }
    {
        find_text(&self.texts, name)
    }
}

// Its count of faults is 0 always.
impl Shelf for SureShelf {
    ghost texts = { λ s. Some s };

    ghost counts = { λ _. record { faults = 0; taken = 0 } };

    ghost gives = { IsTextOf };

    fn load(&mut self, alloc: Global, name: &[u8], limit: u32) -> Result<Bytes, LoadFault>
        ensures answer { AnswersTold self.old name.now limit ⊥ result }
        ensures texts_stay { self.new ≡ self.old }
    {
        copy_text(alloc, &self.texts, name, limit)
    }
}
