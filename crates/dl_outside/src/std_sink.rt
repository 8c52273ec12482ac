//! The sink of the standard output. That the terminal shows what was sent is trusted, and no part of any proof.

ghost use Rattle.std.specs.Prelude.{◌≡◌, ◌≤◌, length, None};
ghost use Rattle.dl_outside.specs.StdSink.{PrintAnswers};

use crate::count::raise;
use crate::sink::{Sink, SinkFault};
use std::marker::Model;

/// What prints, and the count of the errors that were met.
pub struct StdSink<'a, P> {
    output: &'a P,
    fault_count: u64,
}

impl<'a, P> Model for StdSink<'a, P> {
    ghost use Rattle.std.specs.Prelude.{ℕ};

    ghost Value = { ℕ };

    ghost view = { λ s. s.fault_count };
}

impl<P> Drop for StdSink<'_, P> {
    fn drop(self) {
        let StdSink {
            output: _,
            fault_count: _,
        } = self;
    }
}

/// Prints the bytes until an error comes or nothing is taken, and answers how many were printed.
fn print_bytes<P: Print>(output: &P, bytes: &[u8]) -> usize
    ensures { result ≤ length bytes.now }
{
    let mut printed = 0;
    while printed < bytes.len() {
        match output.write_some(&bytes[printed..]) {
            Ok(0) | Err(_) => return printed,
            Ok(count) => printed += count,
        }
    }
    printed
}

impl<'a, P> StdSink<'a, P> {
    /// The sink of what prints here. Nothing was written to it yet.
    pub fn new(output: &'a P) -> Self
        ensures { result ≡ 0 }
    {
        StdSink {
            output,
            fault_count: 0,
        }
    }
}

impl<P: Print> Sink for StdSink<'_, P> {
    ghost sent = { λ _. None };

    ghost faults = { λ s. s };

    // An error after some bytes is counted, and the bytes are answered.
    fn write(&mut self, piece: &[u8]) -> Result<usize, SinkFault>
        ensures answer { PrintAnswers piece.now self.old self.new result }
        ensures faults_never_fall { self.old ≤ self.new }
    {
        let printed = print_bytes(self.output, piece);
        if printed < piece.len() {
            self.fault_count = raise(self.fault_count);
        }
        if printed == 0 && !piece.is_empty() {
            return Err(SinkFault::Failed);
        }
        Ok(printed)
    }
}
