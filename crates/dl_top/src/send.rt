//! The write loop.

ghost use Rattle.std.specs.Prelude.{◌≡◌, ◌≤◌, OnOk, OnErr, Err};
ghost use Rattle.dl_outside.specs.Prelude.{HasRisen, GrowsBy};
ghost use Rattle.dl_outside.specs.declared.sink.SinkFault.TheVariants.{Failed};
ghost use Rattle.dl_top.specs.Ending.{GrowsByFront};

use dl_outside::{Sink, SinkFault};

/// Writes the whole report, piece by piece. Each turn sends at least one byte or ends.
pub fn send<O: Sink>(out: &mut O, report: &[u8]) -> Result<(), SinkFault>
    ensures ok { OnOk result (GrowsBy (O.sent out.old) (O.sent out.new) report.now) }
    ensures err { OnErr result (GrowsByFront (O.sent out.old) (O.sent out.new) report.now) }
    ensures failed { result ≡ Err Failed → HasRisen (O.faults out.old) (O.faults out.new) }
    ensures faults_never_fall { O.faults out.old ≤ O.faults out.new }
{
    let mut sent: usize = 0;
    while sent < report.len() {
        match out.write(&report[sent..]) {
            Ok(taken) => sent += taken,
            Err(fault) => return Err(fault),
        }
    }
    Ok(())
}
