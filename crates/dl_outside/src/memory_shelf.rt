//! A shelf in memory, some of whose loads can be made to fail.

ghost use Rattle.std.specs.Prelude.{◌≡◌, ◌≤◌, ◌↔◌, [], Some, OnOk, OnErr, IsTrue};
ghost use Rattle.std.specs.Option.{option_copied};
ghost use Rattle.dl_outside.specs.Prelude.{HasRisen, new_plan, fails_next, after_call, AnswersTold, IsTextOf, PutsText, text_of};

use crate::fault_plan::PlannedFaults;
use crate::shelf::{LoadFault, Shelf};
use crate::texts::{NamedText, copy_text, find_text, put_text};
use csp_base::{Bytes, Made};
use std::alloc::Global;
use std::marker::Model;

/// Texts in memory, and the numbers of the loads that are to fail.
#[derive(Drop)]
pub struct MemoryShelf {
    texts: Vec<NamedText>,
    plan: PlannedFaults,
}

impl Model for MemoryShelf {
    ghost use Rattle.dl_outside.specs.MemoryDevices.{MemoryShelfState};

    ghost Value = { MemoryShelfState };

    ghost view = { λ s. record { texts = s.texts.items; plan = s.plan } };
}

impl MemoryShelf {
    /// An empty shelf. Loads count from 1, and those of these numbers are to fail.
    pub fn new(alloc: Global, failing: Vec<u32>) -> Self
        ensures { result ≡ record { texts = []; plan = new_plan failing.items } }
    {
        MemoryShelf {
            texts: Vec::new(alloc),
            plan: PlannedFaults::new(failing),
        }
    }

    /// Puts a text under a name, in the place of one that is held under it.
    pub fn put_text(&mut self, name: &[u8], bytes: &[u8]) -> Made<()>
        ensures ok { OnOk result (PutsText self.old.texts self.new.texts name.now bytes.now) }
        ensures plan_stays { self.new.plan ≡ self.old.plan }
        ensures err { OnErr result (self.new ≡ self.old) }
    {
        let alloc = *self.texts.allocator();
        put_text(alloc, &mut self.texts, name, bytes)
    }

    /// The text of this name.
    pub fn text(&self, name: &[u8]) -> Option<&[u8]>
        ensures { option_copied result ≡ text_of self.now.texts name.now }
    {
        find_text(&self.texts, name)
    }
}

impl Shelf for MemoryShelf {
    ghost texts = { λ s. Some s.texts };

    ghost counts = { λ s. record { faults = s.plan.faults; taken = 0 } };

    ghost gives = { λ old new name text. IsTextOf old.texts new.texts name text };

    fn load(&mut self, alloc: Global, name: &[u8], limit: u32) -> Result<Bytes, LoadFault>
        ensures answer { AnswersTold self.old.texts name.now limit
            (HasRisen self.old.plan.faults self.new.plan.faults) result }
        ensures texts_stay { self.new.texts ≡ self.old.texts }
        ensures faults_never_fall { self.old.plan.faults ≤ self.new.plan.faults }
        ensures planned { result ≡ Err LoadFault.Failed ↔ IsTrue (fails_next self.old.plan) }
        ensures counted { self.new.plan ≡ after_call self.old.plan }
    {
        if self.plan.next_call() {
            return Err(LoadFault::Failed);
        }
        copy_text(alloc, &self.texts, name, limit)
    }
}
