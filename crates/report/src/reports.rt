//! The printed reports, and the exit status.

ghost use Rattle.std.specs.Prelude.{◌≡◌, ◌++◌, IfOk};
ghost use Rattle.report.specs.Report.{outside_text, report_text, status, verdict_status};
ghost use Rattle.csp_base.specs.Texts.{line};

use crate::answer::{Answer, OutsideFault, Side, Verdict};
use crate::lines::Part::Text;
use crate::lines::{Printed, one_line, written_line};
use crate::printed::side_name;
use crate::refusals::text_fault_report;
use crate::verdicts::verdict_report;
use csp_base::{Bytes, Made};
use std::alloc::Global;

// The exit status of a verdict.
fn verdict_status(verdict: &Verdict) -> u8
    ensures { result ≡ verdict_status verdict.now }
{
    match verdict {
        Verdict::Done(_) => 0,
        Verdict::NotProved(_) | Verdict::Stuck(_) => 1,
        Verdict::Refused(_, _) => 2,
    }
}

/// The exit status of an answer: 0 done, 1 not proved or stuck, 2 refused, 3 no command, 4 a fault outside.
pub fn status_of(answer: &Answer) -> u8
    ensures { result ≡ status answer.now }
{
    match answer {
        Answer::Shown { text: _ } => 0,
        Answer::Decided(_, verdict) => verdict_status(verdict),
        Answer::NoProgram(_, _) => 2,
        Answer::Usage => 3,
        Answer::Outside(_, _) => 4,
    }
}

// The report of a fault of the shelf.
fn outside(alloc: Global, side: Side, fault: OutsideFault) -> Printed
    ensures { IfOk result (λ made. made ≡ line (outside_text side fault)) }
{
    match fault {
        OutsideFault::NotFound => written_line(
            alloc,
            &[
                Text(b"outside fault: "),
                Text(side_name(side)),
                Text(b" not found"),
            ],
        ),
        OutsideFault::NotRead => written_line(
            alloc,
            &[
                Text(b"outside fault: "),
                Text(side_name(side)),
                Text(b" not read"),
            ],
        ),
    }
}

/// The report of an answer, each line with a line feed at its end.
pub fn report_of(alloc: Global, answer: &Answer) -> Made<Bytes>
    ensures { IfOk result (λ report. report ≡ report_text answer.now) }
{
    match answer {
        Answer::Usage => one_line(
            alloc,
            b"usage: dlcheck check RULE SCRIPT | show SCRIPT | table SCRIPT INDEX | trial FAMILY N | run SCRIPT SEED STEPS | livelock SCRIPT SET | conform SCRIPT SPEC",
        ),
        Answer::Outside(side, fault) => outside(alloc, *side, *fault),
        Answer::NoProgram(side, fault) => text_fault_report(alloc, *side, fault),
        Answer::Shown { text } => text.try_clone(alloc),
        Answer::Decided(program, verdict) => {
            verdict_report(alloc, program.get().content(), verdict)
        }
    }
}
