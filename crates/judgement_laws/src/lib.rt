//! Laws of networks of programs and of the answers about them: what a script decides, it decides alone.
#![tactic(auto)]

ghost use Rattle.judgement_laws.specs.Complete.{EachScriptHasOneStatus, JudgementIsExact};
ghost use Rattle.judgement_laws.specs.Flat.{NetworksAreFlat};
ghost use Rattle.judgement_laws.specs.Laws.{FaultsExcludeNetworks};

/// The steps of the network of a program are those of its components side by side, however the network is nested.
pub fn networks_are_flat()
    ensures { NetworksAreFlat }
{}

/// No script that has a network has what a refusal tells of it.
pub fn faults_exclude_networks()
    ensures { FaultsExcludeNetworks }
{}

/// The verdict on a network has status 0 exactly where the network is within the limits and meets the rule.
pub fn judgement_is_exact()
    ensures { JudgementIsExact }
{}

/// All verdicts on the network of a script by a rule have one status.
pub fn each_script_has_one_status()
    ensures { EachScriptHasOneStatus }
{}
