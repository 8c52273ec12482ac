//! The judgement of a network by a rule.

ghost use Rattle.std.specs.Prelude.{◌≡◌};
ghost use Rattle.network_stages.specs.Prelude.{StaysBusy};
ghost use Rattle.report.specs.Stops.{Answers};
ghost use Rattle.judgement.specs.Judged.{IsJudged, RuleDecides};

use crate::conclusion::conclude_stages;
use crate::free::deadlock_free;
use crate::rules::{noted_rule, ranking_by};
use csp_tables::Rule;
use network_stages::{Shaped, Spelled, Tabled, check_busy, make_parts, make_shape, make_tables};
use report::{Done, Halt};
use std::alloc::Global;

// What the rule says of a busy network with these tables. Only by what `conclude` returns does it answer that the network is free of deadlock.
fn apply_rule(
    alloc: Global,
    rule: Rule,
    tabled: &Tabled<'_>,
    shaped: &Shaped<'_>,
) -> Result<Done, Halt>
    requires network { tabled.now.network ≡ shaped.now.network }
    requires busy { StaysBusy shaped.now.network }
    ensures { Answers (RuleDecides shaped.now.network rule shaped.now.shape) result }
{
    let _shape = shaped.shape();
    let network = shaped.network();
    let _program = network.program();
    let notes = noted_rule(alloc, rule, network)?;
    let ranking = ranking_by(alloc, &notes, shaped)?;
    let proved = conclude_stages(tabled, shaped, &ranking);
    Ok(deadlock_free(rule, &proved, shaped, &ranking))
}

/// The verdict on a network that is judged by a rule.
pub fn judge_by(alloc: Global, rule: Rule, network: &Spelled) -> Result<Done, Halt>
    ensures { Answers (IsJudged network.now rule) result }
{
    let tabled = make_tables(alloc, network)?;
    let parted = make_parts(alloc, &tabled)?;
    let shaped = make_shape(alloc, parted)?;
    check_busy(alloc, &shaped)?;
    apply_rule(alloc, rule, &tabled, &shaped)
}
