//! The answer to the text of a script, or to two texts.

ghost use Rattle.std.specs.Prelude.{◌≡◌, ◌≤◌, IfErr, IfOk, ℕ, length, true};
ghost use Rattle.command_words.specs.declared.request.Job.TheVariants.{Check, Run};
ghost use Rattle.csp_parser.specs.Spells.{Spells};
ghost use Rattle.csp_tables.specs.declared.rule.Rule.{Rule as RuleValue};
ghost use Rattle.csp_text.specs.declared.script.Script.{Script as ScriptValue};
ghost use Rattle.report.specs.Prelude.{report_text, status, Answers, Ends};
ghost use Rattle.csp_base.specs.Stops.{Tells};
ghost use Rattle.script_sizes.specs.Size.{AreSmall};
ghost use Rattle.dl_limits.specs.declared.TheConstants.{MOST_BYTES};
ghost use Rattle.dl_top.specs.Prelude.{SpellMatching, SpellsTables, TextPasses, NetworkDecides, SpellsNoNetwork, SpellsNoScript, SpellsOnlyNetwork, SpellsOnlyScript, TextCallsFor, TextIsShown, TextsCompare, no_script, JobPromised, SpellsConforming, SpellsShown, SpellsDeadlockFree, SpellsRun};

use command_words::Job;
use comparison::compare_networks;
use containers::Key;
use csp_base::{Made, NoMemory, Stop};
use csp_parser::{each_text_spells_one_script, read};
use csp_text::{NoScript, Script};
use judgement::judge_by;
use livelock::bound_hidden;
use network_stages::{Spelled, spell_network};
use network_walks::walk_network;
use report::{Answer, Done, Halt, Side, TextFault, conclude, settle};
use script_printer::print_script;
use std::alloc::Global;
use tabulation::tabulate;

// Why a walk stops at a text of this side that is no script.
fn no_script(side: Side, why: Stop<NoScript>) -> Stop<Answer>
    ensures { result ≡ no_script side why }
{
    match why {
        Stop::Told(NoScript { at }) => {
            Stop::Told(Answer::NoProgram(side, TextFault::NoScript { at }))
        }
        Stop::NoMemory => Stop::NoMemory,
    }
}

// The only script that the text of this side spells, which is small, or that it spells none.
fn spell_script(alloc: Global, side: Side, text: &[u8]) -> Result<Script, Stop<Answer>>
    requires { length text.now ≤ MOST_BYTES }
    ensures small { IfOk result (λ script. AreSmall script.decls) }
    ensures ok { IfOk result (SpellsOnlyScript text.now) }
    ensures told { IfErr result (Tells (SpellsNoScript side text.now)) }
{
    match read(alloc, text) {
        Ok(script) => {
            each_text_spells_one_script();
            Ok(script)
        }
        Err(fault) => Err(no_script(side, fault)),
    }
}

// The only network that the text of this side spells, or why it spells none.
fn spell(alloc: Global, side: Side, text: &[u8]) -> Result<Spelled, Stop<Answer>>
    requires { length text.now ≤ MOST_BYTES }
    ensures ok { IfOk result (SpellsOnlyNetwork text.now) }
    ensures told { IfErr result (Tells (SpellsNoNetwork side text.now)) }
{
    let script = spell_script(alloc, side, text)?;
    spell_network(alloc, Key::of(text), side, &script)
}

// What a network decides with which this is to be done.
fn decide_job(alloc: Global, job: &Job, network: &Spelled) -> Result<Done, Halt>
    ensures { Answers (NetworkDecides job.now network.now) result }
{
    match job {
        Job::Check(rule) => judge_by(alloc, *rule, network),
        Job::Table(index) => tabulate(alloc, *index, network),
        Job::Run { seed, steps } => walk_network(alloc, network, *seed, *steps),
        Job::Livelock(set) => bound_hidden(alloc, network, set.as_slice()),
    }
}

// The walk from the text of a script to the answer.
fn decide_text(alloc: Global, job: &Job, text: &[u8]) -> Result<Answer, Stop<Answer>>
    requires { length text.now ≤ MOST_BYTES }
    ensures { Ends (TextCallsFor text.now job.now) result }
{
    let network = spell(alloc, Side::Script, text)?;
    let verdict = conclude(decide_job(alloc, job, &network))?;
    Ok(Answer::Decided(network.into_program(), verdict))
}

// The answer to which that walk comes.
fn answer_text(alloc: Global, job: &Job, text: &[u8]) -> Made<Answer>
    requires { length text.now ≤ MOST_BYTES }
    ensures { IfOk result (TextCallsFor text.now job.now) }
{
    settle(decide_text(alloc, job, text))
}

/// The answer that the text of a script calls for, with whose network this is to be done: what `dl_main` reports of a text that it loaded. The text has at
/// most `MOST_BYTES` bytes (a longer one is refused where it is loaded).
pub fn judge(alloc: Global, job: &Job, text: &[u8]) -> Made<Answer>
    requires { length text.now ≤ MOST_BYTES }
    ensures answer { IfOk result (TextCallsFor text.now job.now) }

    // The theorem: where a script is judged with status 0, its text spells exactly one network, which is free of deadlock.
    ensures free { IfOk result (λ answer. (rule : RuleValue) → job.now ≡ Check rule → status answer ≡ 0
        → SpellsDeadlockFree text.now rule (report_text answer)) }

    // With status 0 the text and the report are as the table `JobPromised` has it for what is to be done.
    ensures promised { IfOk result (λ answer. status answer ≡ 0 → JobPromised job.now text.now (report_text answer)) }

    // A run ends with status 1 exactly where it is stuck.
    ensures stuck { IfOk result (λ answer. (seed steps : ℕ) → job.now ≡ Run seed steps → status answer ≡ 1
        → SpellsRun text.now seed steps true (report_text answer)) }

    // Completeness: status 0 comes wherever the text is such that it may. A run ends with 0 or 1 wherever the components have tables.
    ensures complete { IfOk result (λ answer. TextPasses job.now text.now → status answer ≡ 0) }
    ensures runs { IfOk result (λ answer. (seed steps : ℕ) → job.now ≡ Run seed steps → SpellsTables text.now
        → status answer ≤ 1) }
{
    answer_text(alloc, job, text)
}

// The walk from the text of a script to its printed text.
fn show_text(alloc: Global, text: &[u8]) -> Result<Answer, Stop<Answer>>
    requires { length text.now ≤ MOST_BYTES }
    ensures { Ends (TextIsShown text.now) result }
{
    let script = spell_script(alloc, Side::Script, text)?;
    let text = print_script(alloc, &script)?;
    Ok(Answer::Shown { text })
}

/// The answer to the text of a script that is to be shown. It has at most `MOST_BYTES` bytes.
pub fn show(alloc: Global, text: &[u8]) -> Made<Answer>
    requires { length text.now ≤ MOST_BYTES }
    ensures answer { IfOk result (TextIsShown text.now) }

    // With status 0 the text spells exactly one script, and the report is the printed text of that, which spells it again and no other.
    ensures shown { IfOk result (λ answer. status answer ≡ 0 → SpellsShown text.now (report_text answer)) }

    // And so it comes wherever the text spells a script.
    ensures complete { IfOk result (λ answer. (script : ScriptValue) → Spells text.now script → status answer ≡ 0) }
{
    settle(show_text(alloc, text))
}

// The walk from the texts of a script and its specification to the answer.
fn compare_texts(alloc: Global, text: &[u8], specification: &[u8]) -> Result<Answer, Stop<Answer>>
    requires text { length text.now ≤ MOST_BYTES }
    requires specification { length specification.now ≤ MOST_BYTES }
    ensures { Ends (TextsCompare text.now specification.now) result }
{
    let network = spell(alloc, Side::Script, text)?;
    let specified = spell(alloc, Side::Specification, specification)?;
    let verdict = conclude(compare_networks(alloc, &network, &specified))?;
    Ok(Answer::Decided(network.into_program(), verdict))
}

/// The answer that the texts of a script and of its specification call for. Each has at most `MOST_BYTES` bytes.
pub fn judge_pair(alloc: Global, text: &[u8], specification: &[u8]) -> Made<Answer>
    requires text { length text.now ≤ MOST_BYTES }
    requires specification { length specification.now ≤ MOST_BYTES }
    ensures answer { IfOk result (TextsCompare text.now specification.now) }

    // With status 0 the network of the script matches that of the specification, and is live where that is.
    ensures conformed { IfOk result (λ answer. status answer ≡ 0
        → SpellsConforming text.now specification.now (report_text answer)) }

    // And so it comes wherever both networks are within the limits and match.
    ensures matching { IfOk result (λ answer. SpellMatching text.now specification.now → status answer ≡ 0) }
{
    settle(compare_texts(alloc, text, specification))
}
