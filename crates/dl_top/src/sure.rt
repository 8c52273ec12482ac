//! The top call over devices in memory that never fail.

ghost use Rattle.std.specs.Prelude.{◌≡◌, ◌≢◌, ◌≤◌, Some};
ghost use Rattle.command_words.specs.Request.{AsksForCheck, AsksForRun, AsksForTrial, NamesNoScript};
ghost use Rattle.dl_outside.specs.Texts.{IsTextOf};
ghost use Rattle.dl_top.specs.Prelude.{CallsFor, HoldsAllNamed, AsksForSuch, Passing, Running, Ends, EndsInShelfFault, EndsWhole, sink_signs, Kept, IsStuckRun, Promised, IsFree};

use crate::top::dl_main;
use command_words::Words;
use dl_outside::{SureShelf, SureSink};
use std::alloc::Global;

/// `dl_main` over a shelf and a sink without faults: the texts that are handed over are those that the shelf holds. Where it holds every text that the words
/// name, the answer is not 4.
pub fn dl_sure(alloc: Global, words: &Words, shelf: &mut SureShelf, out: &mut SureSink) -> u8
    ensures proved { AsksForCheck words.now → result ≡ 0
        → Kept IsFree IsTextOf shelf.old shelf.new words.now (Some out.old.sent) (Some out.new.sent) }
    ensures tried { AsksForTrial words.now → result ≡ 0
        → Kept IsFree IsTextOf shelf.old shelf.new words.now (Some out.old.sent) (Some out.new.sent) }
    ensures promised { result ≡ 0
        → Kept Promised IsTextOf shelf.old shelf.new words.now (Some out.old.sent) (Some out.new.sent) }
    ensures stuck { AsksForRun words.now → result ≡ 1
        → Kept IsStuckRun IsTextOf shelf.old shelf.new words.now (Some out.old.sent) (Some out.new.sent) }
    ensures complete { result ≢ 5 → AsksForSuch Passing shelf.old words.now → result ≡ 0 }
    ensures runs { result ≢ 5 → AsksForSuch Running shelf.old words.now → result ≤ 1 }
    ensures ends { Ends (CallsFor shelf.old words.now) (sink_signs (Some out.old.sent) (Some out.new.sent) 0 0) result }
    ensures shelf_fault { result ≡ 4
        → EndsInShelfFault (CallsFor shelf.old words.now) (sink_signs (Some out.old.sent) (Some out.new.sent) 0 0) }
    ensures settled { result ≢ 5
        → EndsWhole (CallsFor shelf.old words.now) (sink_signs (Some out.old.sent) (Some out.new.sent) 0 0) result }
    ensures held { HoldsAllNamed shelf.old words.now → result ≢ 4 }
    ensures untouched { NamesNoScript words.now → shelf.new ≡ shelf.old }
    ensures texts_stay { shelf.new ≡ shelf.old }
{
    dl_main(alloc, words, shelf, out)
}
