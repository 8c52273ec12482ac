//! Lists of terms, with the numbers of the sets to which silent steps lead from them.

ghost use Rattle.std.specs.Prelude.{◌≡◌, ◌<◌, [], ℕ, List, IfOk, IfSome, OnOk, length};
ghost use Rattle.csp_tables.specs.RawTable.{RawTable as RawSteps};
ghost use Rattle.determinise.specs.Known.{AreKnown, IsReady};
ghost use Rattle.determinise.specs.Progress.{set_at};
ghost use Rattle.term_sets.specs.TermSets.{IsSilentClosure};

use containers::{Items, Numbering};
use csp_base::Made;
use std::alloc::Global;
use term_sets::Prepared;

// From how many terms on a set is kept.
const MANY_TERMS: usize = 32;

// How many terms the lists that are kept may have in all.
const MOST_KEPT: usize = 1_048_576;

// Lists of terms, each with the number of the set to which silent steps lead from it, the room for more of them, and marks for the
// search for more sets.
#[derive(Drop)]
pub(crate) struct Known {
    starts: Numbering<Items<u32>>,
    numbers: Vec<u32>,
    room: usize,
    pub(crate) marks: Vec<bool>,
}

impl Known {
    // No list is known.
    pub(crate) fn new(alloc: Global, table: &Prepared<'_>) -> Made<Known>
        ensures { IfOk result (λ known. (sets : List (List ℕ)) → IsReady table.now sets known) }
    {
        let marks = table.no_marks(alloc)?;
        Ok(Known {
            starts: Numbering::new(alloc),
            numbers: Vec::new(alloc),
            room: MOST_KEPT,
            marks,
        })
    }

    // Lets all lists go where there is no room for more.
    fn make_room(&mut self, alloc: Global)
        ensures known { (raw : RawSteps) (sets : List (List ℕ))
            → AreKnown raw sets self.old.starts self.old.numbers.items
            → AreKnown raw sets self.new.starts self.new.numbers.items }
        ensures marks { self.new.marks ≡ self.old.marks }
    {
        if self.room == 0 {
            self.starts = Numbering::new(alloc);
            self.numbers = Vec::new(alloc);
            self.room = MOST_KEPT;
        }
    }

    // The number of the set of a list, where it is known.
    pub(crate) fn find(&self, starts: &Items<u32>) -> Option<u32>
        requires { length self.now.numbers.items ≡ length self.now.starts }
        ensures within { (raw : RawSteps) (sets : List (List ℕ))
            → AreKnown raw sets self.now.starts self.now.numbers.items → IfSome result (λ n. n < length sets) }
        ensures set { (raw : RawSteps) (sets : List (List ℕ))
            → AreKnown raw sets self.now.starts self.now.numbers.items
            → IfSome result (λ n. IsSilentClosure raw starts.now (set_at sets n)) }
    {
        if self.numbers.is_empty() {
            return None;
        }
        match self.starts.find(starts) {
            Some(place) => Some(self.numbers[place]),
            None => None,
        }
    }

    // Keeps the number of the set of a list, unless the list is known or the set, of so many terms, soon found again.
    pub(crate) fn add(
        &mut self,
        alloc: Global,
        starts: Items<u32>,
        number: u32,
        terms: usize,
    ) -> Made<()>
        ensures known { (raw : RawSteps) (sets : List (List ℕ))
            → AreKnown raw sets self.old.starts self.old.numbers.items → number < length sets
            → IsSilentClosure raw starts (set_at sets number)
            → OnOk result (AreKnown raw sets self.new.starts self.new.numbers.items) }
        ensures marks { self.new.marks ≡ self.old.marks }
    {
        if terms < MANY_TERMS {
            return Ok(());
        }
        self.make_room(alloc);
        self.room = self.room.saturating_sub(starts.len());
        let (_, is_new) = self.starts.insert_full(starts)?;
        if is_new {
            self.numbers.push(number)?;
        }
        Ok(())
    }
}
