//! The top call, and what it promises.

ghost use Rattle.std.specs.Prelude.{◌≡◌, ◌≢◌, ◌≤◌, IfSome};
ghost use Rattle.dl_outside.specs.Count.{HasRisen, NeverFall};
ghost use Rattle.command_words.specs.Request.{AsksForCheck, AsksForRun, AsksForTrial, NamesNoScript};
ghost use Rattle.dl_top.specs.Prelude.{CallsFor, IsLoad, MayGive, AsksForSuch, Passing, Running, Ends, EndsInShelfFault, EndsWhole, sink_signs, Handed, Kept, IsStuckRun, Promised, IsFree};

use crate::load::print_reply;
use crate::send::send;
use command_words::Words;
use dl_outside::{Shelf, Sink, SinkFault};
use std::alloc::Global;

/// The exit status for want of memory.
const NO_MEMORY: u8 = 5;

/// The exit status for a fault outside.
const OUTSIDE_FAULT: u8 = 4;

// Does all of it: what the others say of the call follows from this.
fn report_to<S: Shelf, O: Sink>(alloc: Global, words: &Words, shelf: &mut S, out: &mut O) -> u8
    ensures ends { Ends (MayGive (IsLoad S.texts S.counts S.gives) words.now shelf.old shelf.new)
        (sink_signs (O.sent out.old) (O.sent out.new) (O.faults out.old) (O.faults out.new)) result }
    ensures untouched { NamesNoScript words.now → shelf.new ≡ shelf.old }
    ensures texts_stay { S.texts shelf.new ≡ S.texts shelf.old }
    ensures shelf_counts_never_fall { NeverFall (S.counts shelf.old) (S.counts shelf.new) }
    ensures sink_faults_never_fall { O.faults out.old ≤ O.faults out.new }
{
    let Ok(printed) = print_reply(alloc, words, shelf) else {
        return NO_MEMORY;
    };
    match send(out, printed.text.as_slice()) {
        Ok(()) => printed.status,
        Err(SinkFault::Failed) => OUTSIDE_FAULT,
        Err(SinkFault::NoMemory) => NO_MEMORY,
    }
}

/// Does what the words ask for, sends the report, and answers the exit status: 0 proved or shown, 1 not proved or stuck, 2 refused, 3 no command, 4 a
/// fault of the shelf or the sink, 5 want of memory.
pub fn dl_main<S: Shelf, O: Sink>(alloc: Global, words: &Words, shelf: &mut S, out: &mut O) -> u8
    // The theorem: where a script is judged with status 0, the text that the shelf handed over spells exactly one network, which is free of deadlock.
    ensures proved { AsksForCheck words.now → result ≡ 0
        → Kept IsFree (Handed S.texts S.gives) shelf.old shelf.new words.now (O.sent out.old) (O.sent out.new) }

    // The same of the script of a family, where a trial ends with status 0.
    ensures tried { AsksForTrial words.now → result ≡ 0
        → Kept IsFree (Handed S.texts S.gives) shelf.old shelf.new words.now (O.sent out.old) (O.sent out.new) }

    // Each command: status 0 promises of the texts that were handed over, and of the report, what stands for the command in the table `Promised`. Of a judgement
    // it says that the network meets the rule, and that the greatest rank in the report is its own by the rule.
    ensures promised { result ≡ 0
        → Kept Promised (Handed S.texts S.gives) shelf.old shelf.new words.now (O.sent out.old) (O.sent out.new) }

    // A run ends with status 1 exactly where it is stuck: the state after the printed steps has no step, and the network is live for no bound.
    ensures stuck { AsksForRun words.now → result ≡ 1
        → Kept IsStuckRun (Handed S.texts S.gives) shelf.old shelf.new words.now (O.sent out.old) (O.sent out.new) }

    // Completeness: status 0 comes wherever the texts are such that it may, within the limits, without a fault and with memory enough; a run ends with 0 or 1.
    ensures complete { result ≢ 5 → ¬ HasRisen (S.counts shelf.old).faults (S.counts shelf.new).faults
        → ¬ HasRisen (O.faults out.old) (O.faults out.new)
        → IfSome (S.texts shelf.old) (λ texts. AsksForSuch Passing texts words.now → result ≡ 0) }
    ensures runs { result ≢ 5 → ¬ HasRisen (S.counts shelf.old).faults (S.counts shelf.new).faults
        → ¬ HasRisen (O.faults out.old) (O.faults out.new)
        → IfSome (S.texts shelf.old) (λ texts. AsksForSuch Running texts words.now → result ≤ 1) }

    // Each reply has its cause. A front of a report is sent only where the sink has a fault or memory runs out.
    ensures ends { Ends (MayGive (IsLoad S.texts S.counts S.gives) words.now shelf.old shelf.new)
        (sink_signs (O.sent out.old) (O.sent out.new) (O.faults out.old) (O.faults out.new)) result }

    // Status 4 without a fault of the sink: the whole line of a fault of the shelf.
    ensures shelf_fault { result ≡ 4 → ¬ HasRisen (O.faults out.old) (O.faults out.new)
        → EndsInShelfFault (MayGive (IsLoad S.texts S.counts S.gives) words.now shelf.old shelf.new)
        (sink_signs (O.sent out.old) (O.sent out.new) (O.faults out.old) (O.faults out.new)) }

    // Without a fault, and with memory enough, the answer is the one that the texts call for.
    ensures settled { result ≢ 5 → ¬ HasRisen (S.counts shelf.old).faults (S.counts shelf.new).faults
        → ¬ HasRisen (O.faults out.old) (O.faults out.new)
        → IfSome (S.texts shelf.old) (λ texts. EndsWhole (CallsFor texts words.now)
        (sink_signs (O.sent out.old) (O.sent out.new) (O.faults out.old) (O.faults out.new)) result) }

    // Words that name no script leave the shelf alone.
    ensures untouched { NamesNoScript words.now → shelf.new ≡ shelf.old }

    ensures texts_stay { S.texts shelf.new ≡ S.texts shelf.old }
    ensures shelf_counts_never_fall { NeverFall (S.counts shelf.old) (S.counts shelf.new) }
    ensures sink_faults_never_fall { O.faults out.old ≤ O.faults out.new }
{
    report_to(alloc, words, shelf, out)
}
