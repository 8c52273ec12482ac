//! What is sent for the words: the report of an answer, and for a trial a line before it.

ghost use Rattle.std.specs.Prelude.{◌≡◌, IfOk};
ghost use Rattle.dl_top.specs.Reply.{heading_text, reply_status, reply_text, rule_of};

use command_words::Trial;
use csp_base::{Bytes, Made};
use csp_tables::Rule;
use net_maker::{Family, name_of};
use report::{Answer, report_of, status_of};
use std::alloc::Global;

/// What the words are answered: an answer, and the trial that it is of, if the words ask for one.
pub struct Reply {
    /// The trial.
    pub trial: Option<Trial>,
    /// The answer.
    pub answer: Answer,
}

impl Drop for Reply {
    fn drop(self) {
        let Reply { trial, answer } = self;
    }
}

/// The rule by which a family is judged.
pub fn rule_of(family: Family) -> Rule
    ensures { result ≡ rule_of family }
{
    match family {
        Family::Forks => Rule::Resource,
        Family::Chain => Rule::ClientServer,
        Family::Mesh => Rule::Cyclic,
    }
}

// The line that names a trial.
fn trial_line(alloc: Global, trial: Trial) -> Made<Bytes>
    ensures { IfOk result (λ text. text ≡ heading_text (Some trial)) }
{
    let size = trial.size;
    let size = format!(in alloc; "{size}")?;
    let mut text = Bytes::from_slice(alloc, b"trial ")?;
    text.extend_from_slice(name_of(trial.family))?;
    text.extend_from_slice(b" ")?;
    text.extend_from_slice(size.as_bytes())?;
    text.extend_from_slice(b"\n")?;
    Ok(text)
}

// The whole text that is sent for a reply.
fn text_of(alloc: Global, reply: &Reply) -> Made<Bytes>
    ensures { IfOk result (λ text. text ≡ reply_text reply.now) }
{
    let report = report_of(alloc, &reply.answer)?;
    match reply.trial {
        None => Ok(report),
        Some(trial) => {
            let mut text = trial_line(alloc, trial)?;
            text.extend_from_slice(report.as_slice())?;
            Ok(text)
        }
    }
}

/// What is sent for a reply, with its exit status.
#[derive(Drop)]
pub(crate) struct Printed {
    /// The whole text.
    pub(crate) text: Bytes,
    /// The exit status.
    pub(crate) status: u8,
}

// The printed text of a reply, with its status.
pub(crate) fn print(alloc: Global, reply: &Reply) -> Made<Printed>
    ensures text { IfOk result (λ made. made.text ≡ reply_text reply.now) }
    ensures status { IfOk result (λ made. made.status ≡ reply_status reply.now) }
{
    let text = text_of(alloc, reply)?;
    let status = status_of(&reply.answer);
    Ok(Printed { text, status })
}
