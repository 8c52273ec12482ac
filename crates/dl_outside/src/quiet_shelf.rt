//! A shelf that hands out given strings, one after the other, and tells no texts before it hands them out.

ghost use Rattle.std.specs.Prelude.{◌≡◌, ◌+◌, ◌≤◌, ◌∷◌, length, None, IfSome, IfNone};
ghost use Rattle.dl_outside.specs.QuietShelf.{HasNoNext, QuietAnswers, TurnsTo};

use crate::count::raise;
use crate::shelf::{LoadFault, Shelf};
use csp_base::Bytes;
use std::alloc::Global;
use std::marker::Model;

/// The strings that are left, and what was counted.
#[derive(Drop)]
pub struct QuietShelf {
    answers: Vec<Bytes>,
    fault_count: u64,
    taken_count: u64,
}

impl Model for QuietShelf {
    ghost use Rattle.dl_outside.specs.QuietShelf.{QuietShelfState};

    ghost Value = { QuietShelfState };

    ghost view = { λ s. record { answers = s.answers.items; faults = s.fault_count; taken = s.taken_count } };
}

/// Takes the next string out, and counts its length.
fn take_next(answers: &mut Vec<Bytes>, taken: &mut u64) -> Option<Bytes>
    ensures next { IfSome result (λ text. answers.old.items ≡ text ∷ answers.new.items) }
    ensures counted { IfSome result (λ text. taken.new ≡ taken.old + length text) }
    ensures none { IfNone result (HasNoNext answers.old.items taken.old) }
    ensures answers_stay { IfNone result (answers.new.items ≡ answers.old.items) }
    ensures taken_stays { IfNone result (taken.new ≡ taken.old) }
{
    let next = answers.first()?;
    let counted = taken.checked_add(next.len() as u64)?;
    *taken = counted;
    Some(answers.remove(0))
}

impl QuietShelf {
    /// A shelf that hands out these strings in their order, and fails after the last one.
    pub fn new(answers: Vec<Bytes>) -> Self
        ensures { result ≡ record { answers = answers.items; faults = 0; taken = 0 } }
    {
        QuietShelf {
            answers,
            fault_count: 0,
            taken_count: 0,
        }
    }
}

impl Shelf for QuietShelf {
    ghost texts = { λ _. None };

    ghost counts = { λ s. record { faults = s.faults; taken = s.taken } };

    ghost gives = { λ old new _ text. TurnsTo old new text };

    fn load(&mut self, _alloc: Global, _name: &[u8], limit: u32) -> Result<Bytes, LoadFault>
        ensures answer { QuietAnswers self.old self.new limit result }
        ensures faults_never_fall { self.old.faults ≤ self.new.faults }
        ensures taken_never_falls { self.old.taken ≤ self.new.taken }
    {
        match take_next(&mut self.answers, &mut self.taken_count) {
            None => {
                self.fault_count = raise(self.fault_count);
                Err(LoadFault::Failed)
            }
            Some(text) if text.len() > limit as usize => Err(LoadFault::TooLong),
            Some(text) => Ok(text),
        }
    }
}
