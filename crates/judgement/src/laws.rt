//! No script has two networks.

ghost use Rattle.judgement.specs.Laws.{EachScriptHasOneNetwork};

/// A script has one network at most.
pub fn each_script_has_one_network()
    ensures { EachScriptHasOneNetwork }
{}
