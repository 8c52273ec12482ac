//! A sink in memory, some of whose writes can be made to fail.

ghost use Rattle.std.specs.Prelude.{◌≡◌, ◌≤◌, ◌↔◌, [], length, min, Some, IfOk, IsTrue};
ghost use Rattle.dl_outside.specs.Prelude.{HasRisen, new_plan, fails_next, after_call, WriteAnswers};

use crate::fault_plan::PlannedFaults;
use crate::pieces::take_piece;
use crate::sink::{Sink, SinkFault};
use csp_base::Bytes;
use std::alloc::Global;
use std::marker::Model;

/// The bytes that were sent, and the numbers of the writes that are to fail.
#[derive(Drop)]
pub struct MemorySink {
    sent: Bytes,
    most: u32,
    plan: PlannedFaults,
}

impl Model for MemorySink {
    ghost use Rattle.std.specs.Prelude.{◌≤◌};
    ghost use Rattle.dl_outside.specs.MemoryDevices.{MemorySinkState};

    ghost Value = { MemorySinkState };

    ghost view = { λ s. record { sent = s.sent; most = s.most; plan = s.plan } };

    ghost invariant = { λ s. 1 ≤ s.most };
}

impl MemorySink {
    /// An empty sink that takes at most `most` bytes in one write.
    /// Writes count from 1, and those of these numbers are to fail.
    pub fn new(alloc: Global, most: u32, failing: Vec<u32>) -> Self
        requires { 1 ≤ most }
        ensures { result ≡ record { sent = []; most = most; plan = new_plan failing.items } }
    {
        MemorySink {
            sent: Bytes::new(alloc),
            most,
            plan: PlannedFaults::new(failing),
        }
    }

    /// The bytes that were sent so far.
    pub fn sent(&self) -> &[u8]
        ensures { result.now ≡ self.now.sent }
    {
        self.sent.as_slice()
    }
}

impl Sink for MemorySink {
    ghost sent = { λ s. Some s.sent };

    ghost faults = { λ s. s.plan.faults };

    fn write(&mut self, piece: &[u8]) -> Result<usize, SinkFault>
        ensures answer { WriteAnswers (Some self.old.sent) (Some self.new.sent) piece.now
            (HasRisen self.old.plan.faults self.new.plan.faults) result }
        ensures faults_never_fall { self.old.plan.faults ≤ self.new.plan.faults }
        ensures count { IfOk result (λ n. n ≡ min (length piece.now) self.old.most) }
        ensures planned { result ≡ Err SinkFault.Failed ↔ IsTrue (fails_next self.old.plan) }
        ensures counted { self.new.plan ≡ after_call self.old.plan }
        ensures most_stays { self.new.most ≡ self.old.most }
    {
        if self.plan.next_call() {
            return Err(SinkFault::Failed);
        }
        Ok(take_piece(&mut self.sent, piece, self.most)?)
    }
}
