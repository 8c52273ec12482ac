//! A sink in memory whose writes never fail.

ghost use Rattle.std.specs.Prelude.{◌≡◌, ◌≤◌, [], length, min, Some, IfOk};
ghost use Rattle.dl_outside.specs.Write.{WriteAnswers};

use crate::pieces::take_piece;
use crate::sink::{Sink, SinkFault};
use csp_base::Bytes;
use std::alloc::Global;
use std::marker::Model;

/// The bytes that were sent.
#[derive(Drop)]
pub struct SureSink {
    sent: Bytes,
    most: u32,
}

impl Model for SureSink {
    ghost use Rattle.std.specs.Prelude.{◌≤◌};
    ghost use Rattle.dl_outside.specs.MemoryDevices.{SureSinkState};

    ghost Value = { SureSinkState };

    ghost view = { λ s. record { sent = s.sent; most = s.most } };

    ghost invariant = { λ s. 1 ≤ s.most };
}

impl SureSink {
    /// An empty sink that takes at most `most` bytes in one write.
    pub fn new(alloc: Global, most: u32) -> Self
        requires { 1 ≤ most }
        ensures { result ≡ record { sent = []; most = most } }
    {
        SureSink {
            sent: Bytes::new(alloc),
            most,
        }
    }

    /// The bytes that were sent so far.
    pub fn sent(&self) -> &[u8]
        ensures { result.now ≡ self.now.sent }
    {
        self.sent.as_slice()
    }
}

// Its count of faults is 0 always.
impl Sink for SureSink {
    ghost sent = { λ s. Some s.sent };

    ghost faults = { λ _. 0 };

    fn write(&mut self, piece: &[u8]) -> Result<usize, SinkFault>
        ensures answer { WriteAnswers (Some self.old.sent) (Some self.new.sent) piece.now ⊥ result }
        ensures count { IfOk result (λ n. n ≡ min (length piece.now) self.old.most) }
        ensures most_stays { self.new.most ≡ self.old.most }
    {
        Ok(take_piece(&mut self.sent, piece, self.most)?)
    }
}
