//! What the checker asks of the place that reports are written to.

ghost use Rattle.std.specs.Prelude.{◌≡◌, ◌≤◌, ℕ, List, Option};
ghost use Rattle.dl_outside.specs.Prelude.{HasRisen, WriteAnswers};

use csp_base::NoMemory;

/// Why nothing of a piece was taken.
#[derive(Clone, Copy, Debug, PartialEq, Eq, Drop, thiserror::Error)]
pub enum SinkFault {
    /// The bytes could not be written.
    #[error("the bytes could not be written")]
    Failed,
    /// Memory ran out.
    #[error("out of memory")]
    NoMemory,
}

impl From<NoMemory> for SinkFault {
    ghost use Rattle.std.specs.Prelude.{◌≡◌};
    ghost use Rattle.dl_outside.specs.declared.sink.SinkFault.TheVariants.{NoMemory as OutOfMemory};

    ghost from_gives = { λ _ fault. fault ≡ OutOfMemory };

    fn from(_error: NoMemory) -> Self {
        SinkFault::NoMemory
    }
}

/// A place that takes bytes, one piece after the other.
pub trait Sink {
    // What was sent to it so far, where it tells.
    ghost sent: { Self → Option (List ℕ) };

    // How many faults it has had, up to the last value of a `u64`.
    ghost faults: { Self → ℕ };

    /// Takes the first bytes of the piece, and answers how many.
    fn write(&mut self, piece: &[u8]) -> Result<usize, SinkFault>
        ensures answer { WriteAnswers (sent self.old) (sent self.new) piece.now
            (HasRisen (faults self.old) (faults self.new)) result }
        ensures faults_never_fall { faults self.old ≤ faults self.new };
}
