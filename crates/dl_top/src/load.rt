//! From the words to the reply: texts are loaded, or made for a trial, and judged.

ghost use Rattle.std.specs.Prelude.{◌≡◌, ◌≤◌, ◌∷◌, [], Err, IfErr, IfOk, Ok, OnOk, length};
ghost use Rattle.command_words.specs.declared.request.Request.TheVariants as asking;
ghost use Rattle.command_words.specs.declared.request.Trial.{Trial as TrialValue};
ghost use Rattle.command_words.specs.Request.{NamesNoScript, names};
ghost use Rattle.dl_limits.specs.declared.TheConstants.{MOST_BYTES};
ghost use Rattle.dl_outside.specs.Count.{NeverFall};
ghost use Rattle.dl_outside.specs.declared.shelf.LoadFault.{LoadFault as FaultValue};
ghost use Rattle.csp_base.specs.Stops.{Tells};
ghost use Rattle.report.specs.Stops.{Ends};
ghost use Rattle.report.specs.declared.answer.Side.TheVariants as side;
ghost use Rattle.dl_top.specs.Prelude.{IsLoad, Loaded, MayGive, TellsLoad, TextsCallFor, IsUnloaded, Prints};

use crate::judge::{judge, judge_pair, show};
use crate::reply::{Printed, Reply, print, rule_of};
use command_words::{Job, Request, Trial, Words, read_request};
use csp_base::{Bytes, Made, NoMemory, Stop};
use dl_limits::MOST_BYTES;
use dl_outside::{LoadFault, Shelf};
use net_maker::family_script;
use report::{Answer, OutsideFault, Side, TextFault, settle};
use std::alloc::Global;

// How it is told that the text of this side can't be loaded.
fn load_fault(side: Side, fault: LoadFault) -> Stop<Answer>
    ensures { Tells (TellsLoad side fault) result }
{
    match fault {
        LoadFault::Missing => Stop::Told(Answer::Outside(side, OutsideFault::NotFound)),
        LoadFault::TooLong => Stop::Told(Answer::NoProgram(side, TextFault::TooLong)),
        LoadFault::Failed => Stop::Told(Answer::Outside(side, OutsideFault::NotRead)),
        LoadFault::NoMemory => Stop::NoMemory,
    }
}

// The text of this side, which has this name.
fn load<S: Shelf>(
    alloc: Global,
    side: Side,
    name: &[u8],
    shelf: &mut S,
) -> Result<Bytes, Stop<Answer>>
    ensures ok { IfOk result (λ text. IsLoad S.texts S.counts S.gives shelf.old shelf.new name.now (Ok text)) }
    ensures short { IfOk result (λ text. length text ≤ MOST_BYTES) }
    ensures told { IfErr result (Tells (IsUnloaded
        (IsLoad S.texts S.counts S.gives shelf.old shelf.new name.now) side)) }
    ensures texts_stay { S.texts shelf.new ≡ S.texts shelf.old }
    ensures never_fall { NeverFall (S.counts shelf.old) (S.counts shelf.new) }
{
    match shelf.load(alloc, name, MOST_BYTES) {
        Ok(text) => Ok(text),
        Err(fault) => Err(load_fault(side, fault)),
    }
}

// The answer to a request to show the script of this name.
fn answer_show<S: Shelf>(alloc: Global, name: &[u8], shelf: &mut S) -> Result<Answer, Stop<Answer>>
    ensures calls { Ends (Loaded (IsLoad S.texts S.counts S.gives) side.Script shelf.old shelf.new
        (name.now ∷ []) (TextsCallFor (asking.Show name.now))) result }
    ensures texts_stay { S.texts shelf.new ≡ S.texts shelf.old }
    ensures never_fall { NeverFall (S.counts shelf.old) (S.counts shelf.new) }
{
    let text = load(alloc, Side::Script, name, shelf)?;
    let answer = show(alloc, text.as_slice())?;
    Ok(answer)
}

// The answer to a request to do this with the network of the script of this name.
fn answer_script<S: Shelf>(
    alloc: Global,
    job: &Job,
    name: &[u8],
    shelf: &mut S,
) -> Result<Answer, Stop<Answer>>
    ensures calls { Ends (Loaded (IsLoad S.texts S.counts S.gives) side.Script shelf.old shelf.new
        (name.now ∷ []) (TextsCallFor (asking.Script job.now name.now))) result }
    ensures texts_stay { S.texts shelf.new ≡ S.texts shelf.old }
    ensures never_fall { NeverFall (S.counts shelf.old) (S.counts shelf.new) }
{
    let text = load(alloc, Side::Script, name, shelf)?;
    let answer = judge(alloc, job, text.as_slice())?;
    Ok(answer)
}

// The answer to a request to hold the script of the first name against the specification of the second.
fn answer_conform<S: Shelf>(
    alloc: Global,
    script: &[u8],
    specification: &[u8],
    shelf: &mut S,
) -> Result<Answer, Stop<Answer>>
    ensures calls { Ends (Loaded (IsLoad S.texts S.counts S.gives) side.Script shelf.old shelf.new
        (script.now ∷ specification.now ∷ []) (TextsCallFor (asking.Conform script.now specification.now))) result }
    ensures texts_stay { S.texts shelf.new ≡ S.texts shelf.old }
    ensures never_fall { NeverFall (S.counts shelf.old) (S.counts shelf.new) }
{
    let text = load(alloc, Side::Script, script, shelf)?;
    let other = load(alloc, Side::Specification, specification, shelf)?;
    let answer = judge_pair(alloc, text.as_slice(), other.as_slice())?;
    Ok(answer)
}

// The answer to a trial.
fn answer_trial(alloc: Global, trial: Trial) -> Result<Answer, Stop<Answer>>
    ensures { Ends (TextsCallFor (asking.Trial trial) []) result }
{
    let text = family_script(alloc, trial.family, trial.size)?;
    let answer = judge(alloc, &Job::Check(rule_of(trial.family)), text.as_slice())?;
    Ok(answer)
}

// The answer to a request. Nothing is loaded where it names no script.
fn answer_request<S: Shelf>(
    alloc: Global,
    request: &Request,
    shelf: &mut S,
) -> Result<Answer, Stop<Answer>>
    ensures calls { Ends (Loaded (IsLoad S.texts S.counts S.gives) side.Script shelf.old shelf.new
        (names request.now) (TextsCallFor request.now)) result }
    ensures untouched { names request.now ≡ [] → shelf.new ≡ shelf.old }
    ensures texts_stay { S.texts shelf.new ≡ S.texts shelf.old }
    ensures never_fall { NeverFall (S.counts shelf.old) (S.counts shelf.new) }
{
    match request {
        Request::Show(name) => answer_show(alloc, name.as_slice(), shelf),
        Request::Script(job, name) => answer_script(alloc, job, name.as_slice(), shelf),
        Request::Trial(trial) => answer_trial(alloc, *trial),
        Request::Conform(script, specification) => {
            answer_conform(alloc, script.as_slice(), specification.as_slice(), shelf)
        }
    }
}

// The reply to the words. Nothing is loaded where they name no script.
fn reply_to<S: Shelf>(alloc: Global, words: &Words, shelf: &mut S) -> Made<Reply>
    ensures cause { IfOk result (MayGive (IsLoad S.texts S.counts S.gives) words.now shelf.old shelf.new) }
    ensures untouched { NamesNoScript words.now → shelf.new ≡ shelf.old }
    ensures texts_stay { S.texts shelf.new ≡ S.texts shelf.old }
    ensures never_fall { NeverFall (S.counts shelf.old) (S.counts shelf.new) }
{
    let found = read_request(alloc, words)?;
    let Some(request) = found else {
        return Ok(Reply {
            trial: None,
            answer: Answer::Usage,
        });
    };
    let trial = request.trial();
    match settle(answer_request(alloc, &request, shelf)) {
        Ok(answer) => Ok(Reply { trial, answer }),
        Err(error) => Err(error),
    }
}

/// What is sent in reply to the words, with the exit status.
pub(crate) fn print_reply<S: Shelf>(alloc: Global, words: &Words, shelf: &mut S) -> Made<Printed>
    ensures prints { IfOk result (Prints (MayGive (IsLoad S.texts S.counts S.gives) words.now shelf.old shelf.new)) }
    ensures untouched { NamesNoScript words.now → shelf.new ≡ shelf.old }
    ensures texts_stay { S.texts shelf.new ≡ S.texts shelf.old }
    ensures never_fall { NeverFall (S.counts shelf.old) (S.counts shelf.new) }
{
    match reply_to(alloc, words, shelf) {
        Ok(reply) => print(alloc, &reply),
        Err(error) => Err(error),
    }
}
