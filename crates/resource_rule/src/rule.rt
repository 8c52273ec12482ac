//! The rule as a whole.

ghost use Rattle.std.specs.Prelude.{◌≡◌, ◌<◌, ℕ, All, IfErr, IfOk, OnOk, length};
ghost use Rattle.csp_base.specs.Stops.{Tells};
ghost use Rattle.csp_tables.specs.Prelude.{TripleDisjoint, alphabets_of, IsWellFormed};
ghost use Rattle.design_rules.specs.Prelude.{IsHeldWhile, IsResource, KeepUses, ResourcesRise, AreResourceNumbers, IsResourceRanking, BreaksResource};
ghost use Rattle.digraph.specs.Digraph.{HasArc};
ghost use Rattle.resource_conditions.specs.Setting.{Breaks};
ghost use Rattle.rule_rankings.specs.ResourceRanks.{number_by};

use crate::holdings::holdings;
use crate::users::check_users;
use csp_base::Stop;
use csp_tables::{Ranking, Shape, UseSets};
use design_rules::RuleFault;
use digraph::{Heights, Rows, longest_walks};
use resource_conditions::{check_grants, check_kinds, check_turns};
use rule_rankings::resource_ranking;
use shape_links::{Setting, turn_circle};
use std::alloc::Global;

/// The ranking of a network of users and resources, or what breaks the rule.
pub fn resource(alloc: Global, shape: &Shape, uses: &[UseSets]) -> Result<Ranking, Stop<RuleFault>>
    requires form { IsWellFormed shape.now }
    requires apart { TripleDisjoint (alphabets_of shape.now.parts) }
    requires uses { length uses.now ≡ length shape.now.parts }
    ensures resource { OnOk result (IsResource shape.now uses.now) }
    ensures ranking { IfOk result (λ ranking. IsResourceRanking shape.now uses.now ranking) }
    ensures fault { IfErr result (Tells (BreaksResource shape.now uses.now)) }
{
    let setting = Setting::new(alloc, shape, uses)?;
    setting_ranking(alloc, &setting)
}

// The same of a shape that is sorted out, with its resources.
fn setting_ranking(alloc: Global, setting: &Setting<'_>) -> Result<Ranking, Stop<RuleFault>>
    ensures resource { OnOk result (IsResource setting.now.shape setting.now.uses) }
    ensures ranking { IfOk result (λ ranking. IsResourceRanking setting.now.shape setting.now.uses ranking) }
    ensures fault { IfErr result (Tells (Breaks setting.now)) }
{
    let heights = checked_numbers(alloc, setting)?;
    let ranking = resource_ranking(alloc, setting, &heights)?;
    Ok(ranking)
}

// The numbers of the resources, where the rule holds, and else what breaks it.
fn checked_numbers(alloc: Global, setting: &Setting<'_>) -> Result<Heights, Stop<RuleFault>>
    ensures keep { OnOk result (KeepUses setting.now.shape setting.now.uses) }
    ensures count { IfOk result (λ heights. length heights ≡ length setting.now.shape.parts) }
    ensures below { IfOk result (λ heights. All (λ height. height < length setting.now.shape.parts) heights) }
    ensures numbers { IfOk result (λ heights.
        AreResourceNumbers setting.now.shape setting.now.uses (number_by heights)) }
    ensures rise { IfOk result (λ heights. ResourcesRise setting.now.shape setting.now.uses (number_by heights)) }
    ensures fault { IfErr result (Tells (Breaks setting.now)) }
{
    check_kinds(alloc, setting)?;
    check_turns(alloc, setting)?;
    check_grants(alloc, setting)?;
    check_users(alloc, setting)?;
    let rows = holdings(alloc, setting)?;
    numbers(alloc, setting, &rows)
}

// For each resource the greatest number of resources that must be numbered below it in a chain.
fn numbers(alloc: Global, setting: &Setting<'_>, rows: &Rows) -> Result<Heights, Stop<RuleFault>>
    requires keep { KeepUses setting.now.shape setting.now.uses }
    requires count { length rows.now ≡ length setting.now.shape.parts }
    requires sound { (j m : ℕ) → HasArc rows.now j m → IsHeldWhile setting.now.shape setting.now.uses m j }
    requires complete { (j m : ℕ) → IsHeldWhile setting.now.shape setting.now.uses m j → HasArc rows.now j m }
    ensures count { IfOk result (λ heights. length heights ≡ length setting.now.shape.parts) }
    ensures below { IfOk result (λ heights. All (λ height. height < length setting.now.shape.parts) heights) }
    ensures numbers { IfOk result (λ heights.
        AreResourceNumbers setting.now.shape setting.now.uses (number_by heights)) }
    ensures rise { IfOk result (λ heights. ResourcesRise setting.now.shape setting.now.uses (number_by heights)) }
    ensures fault { IfErr result (Tells (Breaks setting.now)) }
{
    let _form = setting.shape();
    match longest_walks(alloc, rows) {
        Ok(heights) => Ok(heights),
        Err(Stop::Told(circle)) => {
            let resources = turn_circle(alloc, circle.members())?;
            Err(Stop::Told(RuleFault::ResourcesCircle { resources }))
        }
        Err(Stop::NoMemory) => Err(Stop::NoMemory),
    }
}
