//! What the words of a command line ask for.

ghost use Rattle.std.specs.Prelude.{◌≡◌, ◌<◌, ◌≤◌, List, ℕ, IfNone, IfOk, IfSome};
ghost use Rattle.csp_tables.specs.declared.rule.Rule.{Rule as RuleValue};
ghost use Rattle.net_maker.specs.declared.families.Family.{Family as FamilyValue};
ghost use Rattle.net_maker.specs.Families.{family_name, greatest, least};
ghost use Rattle.report.specs.Report.{rule_text};
ghost use Rattle.command_words.specs.Prelude.{IsNamed, Asks, IsNoRequest, trial_of, written, Check, Livelock, Run, Table};
ghost use Rattle.command_words.specs.declared.request.Job.{Job as JobValue};
ghost use Rattle.command_words.specs.declared.request.Trial.{Trial as TrialValue};
ghost use Rattle.command_words.specs.declared.request.Request.TheVariants as request;

use crate::numbers::spelled_number;
use crate::words::Words;
use csp_base::{Bytes, Made};
use csp_tables::Rule;
use net_maker::{Family, greatest_size, least_size, name_of};
use report::rule_name;
use std::alloc::Global;

const CHECK: &[u8] = b"check";

const SHOW: &[u8] = b"show";

const TABLE: &[u8] = b"table";

const TRIAL: &[u8] = b"trial";

const RUN: &[u8] = b"run";

const LIVELOCK: &[u8] = b"livelock";

const CONFORM: &[u8] = b"conform";

/// What is to be done with the network of a script.
#[derive(Drop)]
pub enum Job {
    /// It is judged by a rule.
    Check(Rule),
    /// The normal table of the component with this number is printed.
    Table(u32),
    /// A run of it is printed.
    Run {
        /// The number that chooses the steps.
        seed: u32,
        /// How many steps are asked for.
        steps: u32,
    },
    /// The events of the set of this name are taken to be hidden, and how many steps in a row are hidden is bounded.
    Livelock(Bytes),
}

/// A network of a family, to be judged by the family's rule.
#[derive(Clone, Copy)]
pub struct Trial {
    /// The family.
    pub family: Family,
    /// The size, from the least to the greatest of the family.
    pub size: u32,
}

/// What the words ask for.
#[derive(Drop)]
pub enum Request {
    /// The script of this name is to be printed again.
    Show(Bytes),
    /// A job is to be done with the network of the script of this name.
    Script(Job, Bytes),
    /// A network of a family is to be tried.
    Trial(Trial),
    /// The network of the script of the first name is held against that of the second, its specification.
    Conform(Bytes, Bytes),
}

impl Request {
    /// The trial for which it asks, if it does.
    pub fn trial(&self) -> Option<Trial>
        ensures { result ≡ trial_of self.now }
    {
        match self {
            Request::Trial(trial) => Some(*trial),
            Request::Show(_) | Request::Script(_, _) | Request::Conform(_, _) => None,
        }
    }
}

// The rule of this name.
fn rule_named(name: &[u8]) -> Option<Rule>
    ensures named { IfSome result (λ rule. name.now ≡ rule_text rule) }
    ensures none { IfNone result ((rule : RuleValue) → name.now ≡ rule_text rule → ⊥) }
{
    if name == rule_name(Rule::Cyclic) {
        return Some(Rule::Cyclic);
    }
    if name == rule_name(Rule::ClientServer) {
        return Some(Rule::ClientServer);
    }
    if name == rule_name(Rule::Resource) {
        return Some(Rule::Resource);
    }
    None
}

// The family of this name.
fn family_named(name: &[u8]) -> Option<Family>
    ensures named { IfSome result (λ family. name.now ≡ family_name family) }
    ensures none { IfNone result ((family : FamilyValue) → name.now ≡ family_name family → ⊥) }
{
    if name == name_of(Family::Forks) {
        return Some(Family::Forks);
    }
    if name == name_of(Family::Chain) {
        return Some(Family::Chain);
    }
    if name == name_of(Family::Mesh) {
        return Some(Family::Mesh);
    }
    None
}

// The rule and the script's name of the words `check RULE SCRIPT`.
fn read_check(words: &[Bytes]) -> Option<(Rule, &[u8])>
    ensures asks { IfSome result (λ asked. words.now ≡ written (request.Script (Check asked.0) asked.1.now)) }
    ensures none { IfNone result
        ((rule : RuleValue) (script : List ℕ) → words.now ≡ written (request.Script (Check rule) script) → ⊥) }
{
    match words {
        [check, rule, script] if check.as_slice() == CHECK => match rule_named(rule.as_slice()) {
            Some(rule) => Some((rule, script.as_slice())),
            None => None,
        },
        _ => None,
    }
}

// The script's name of the words `show SCRIPT`.
fn read_show(words: &[Bytes]) -> Option<&[u8]>
    ensures asks { IfSome result (λ script. words.now ≡ written (request.Show script.now)) }
    ensures none { IfNone result ((script : List ℕ) → words.now ≡ written (request.Show script) → ⊥) }
{
    match words {
        [show, script] if show.as_slice() == SHOW => Some(script.as_slice()),
        _ => None,
    }
}

// The component and the script's name of the words `table SCRIPT INDEX`.
fn read_table(words: &[Bytes]) -> Option<(u32, &[u8])>
    ensures asks { IfSome result (λ asked.
        (asked.0 < 1000000) × (words.now ≡ written (request.Script (Table asked.0) asked.1.now))) }
    ensures none { IfNone result
        ((i : ℕ) (script : List ℕ) → i < 1000000 → words.now ≡ written (request.Script (Table i) script) → ⊥) }
{
    match words {
        [table, script, index] if table.as_slice() == TABLE => match spelled_number(
            index.as_slice(),
        ) {
            Some(index) => Some((index, script.as_slice())),
            None => None,
        },
        _ => None,
    }
}

// The seed, the number of steps and the script's name of the words `run SCRIPT SEED STEPS`.
fn read_run(words: &[Bytes]) -> Option<(u32, u32, &[u8])>
    ensures asks { IfSome result (λ asked. Asks words.now (request.Script (Run asked.0 asked.1) asked.2.now)) }
    ensures none { IfNone result
        ((seed steps : ℕ) (script : List ℕ) → Asks words.now (request.Script (Run seed steps) script) → ⊥) }
{
    match words {
        [run, script, seed, steps] if run.as_slice() == RUN => {
            let Some(seed) = spelled_number(seed.as_slice()) else {
                return None;
            };
            let Some(steps) = spelled_number(steps.as_slice()) else {
                return None;
            };
            Some((seed, steps, script.as_slice()))
        }
        _ => None,
    }
}

// The set's name and the script's name of the words `livelock SCRIPT SET`.
fn read_livelock(words: &[Bytes]) -> Option<(&[u8], &[u8])>
    ensures asks { IfSome result (λ asked. Asks words.now (request.Script (Livelock asked.0.now) asked.1.now)) }
    ensures none { IfNone result ((set script : List ℕ) → Asks words.now (request.Script (Livelock set) script) → ⊥) }
{
    match words {
        [livelock, script, set] if livelock.as_slice() == LIVELOCK => {
            Some((set.as_slice(), script.as_slice()))
        }
        _ => None,
    }
}

// What the words ask for the network of a script, and the script's name.
fn read_job(alloc: Global, words: &[Bytes]) -> Made<Option<(Job, &[u8])>>
    ensures asks { IfOk result (λ found. IfSome found (λ asked. Asks words.now (request.Script asked.0 asked.1.now))) }
    ensures none { IfOk result (λ found.
        IfNone found ((job : JobValue) (script : List ℕ) → Asks words.now (request.Script job script) → ⊥)) }
{
    if let Some((rule, script)) = read_check(words) {
        return Ok(Some((Job::Check(rule), script)));
    }
    if let Some((index, script)) = read_table(words) {
        return Ok(Some((Job::Table(index), script)));
    }
    if let Some((seed, steps, script)) = read_run(words) {
        return Ok(Some((Job::Run { seed, steps }, script)));
    }
    if let Some((set, script)) = read_livelock(words) {
        let set = Bytes::from_slice(alloc, set)?;
        return Ok(Some((Job::Livelock(set), script)));
    }
    Ok(None)
}

// The trial of a family, where the family has the size.
fn trial_of(family: Family, size: u32) -> Option<Trial>
    ensures trial { IfSome result (λ trial.
        (trial ≡ record { family = family; size = size }) × (least family ≤ size) × (size ≤ greatest family)) }
    ensures none { IfNone result (least family ≤ size → size ≤ greatest family → ⊥) }
{
    if size < least_size(family) || greatest_size(family) < size {
        return None;
    }
    Some(Trial { family, size })
}

// The trial of the words after `trial`.
fn trial_named(family: &[u8], size: &[u8]) -> Option<Trial>
    ensures named { IfSome result (IsNamed family.now size.now) }
    ensures none { IfNone result ((trial : TrialValue) → IsNamed family.now size.now trial → ⊥) }
{
    let Some(family) = family_named(family) else {
        return None;
    };
    let Some(size) = spelled_number(size) else {
        return None;
    };
    trial_of(family, size)
}

// The trial of the words `trial FAMILY N`.
fn read_trial(words: &[Bytes]) -> Option<Trial>
    ensures asks { IfSome result (λ trial. Asks words.now (request.Trial trial)) }
    ensures none { IfNone result ((trial : TrialValue) → Asks words.now (request.Trial trial) → ⊥) }
{
    match words {
        [trial, family, size] if trial.as_slice() == TRIAL => {
            trial_named(family.as_slice(), size.as_slice())
        }
        _ => None,
    }
}

// The names of the words `conform SCRIPT SPEC`.
fn read_conform(words: &[Bytes]) -> Option<(&[u8], &[u8])>
    ensures asks { IfSome result (λ asked. Asks words.now (request.Conform asked.0.now asked.1.now)) }
    ensures none { IfNone result
        ((script specification : List ℕ) → Asks words.now (request.Conform script specification) → ⊥) }
{
    match words {
        [conform, script, specification] if conform.as_slice() == CONFORM => {
            Some((script.as_slice(), specification.as_slice()))
        }
        _ => None,
    }
}

// The request to hold the script of the first name against that of the second.
fn conform_of(alloc: Global, script: &[u8], specification: &[u8]) -> Made<Request>
    ensures { IfOk result (λ made. made ≡ request.Conform script.now specification.now) }
{
    let script = Bytes::from_slice(alloc, script)?;
    let specification = Bytes::from_slice(alloc, specification)?;
    Ok(Request::Conform(script, specification))
}

/// What the words ask for, if they ask for something.
pub fn read_request(alloc: Global, words: &Words) -> Made<Option<Request>>
    ensures asks { IfOk result (λ found. IfSome found (Asks words.now)) }
    ensures none { IfOk result (λ found. IfNone found (IsNoRequest words.now)) }
{
    let words = words.as_slice();
    if let Some(trial) = read_trial(words) {
        return Ok(Some(Request::Trial(trial)));
    }
    if let Some(script) = read_show(words) {
        let name = Bytes::from_slice(alloc, script)?;
        return Ok(Some(Request::Show(name)));
    }
    if let Some((script, specification)) = read_conform(words) {
        let request = conform_of(alloc, script, specification)?;
        return Ok(Some(request));
    }
    let found = read_job(alloc, words)?;
    let Some((job, script)) = found else {
        return Ok(None);
    };
    let name = Bytes::from_slice(alloc, script)?;
    Ok(Some(Request::Script(job, name)))
}
