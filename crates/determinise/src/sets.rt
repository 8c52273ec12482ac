//! The sets of terms to which events lead, numbered as they are met.

ghost use Rattle.std.specs.Prelude.{◌≡◌, ◌+◌, ◌<◌, ◌≤◌, ℕ, [], ◌∷◌, ◌++◌, All, IfErr, IfOk, OnOk, length, slice_index_or};
ghost use Rattle.csp_base.specs.Prelude.{Tells};
ghost use Rattle.dl_limits.specs.declared.TheConstants.{MOST_SETS};
ghost use Rattle.std.specs.List.Sorted.{IsNonDecreasingBy};
ghost use Rattle.csp_tables.specs.BreadthFirst.{MeetsInOrder, targets_of_steps};
ghost use Rattle.determinise.specs.Progress.{AreMoreSets, AreNodeSteps, IsSomeNextSet, set_at};
ghost use Rattle.determinise.specs.Known.{IsReady};
ghost use Rattle.term_sets.specs.Marks.{IsUnmarked};
ghost use Rattle.term_sets.specs.TermSets.{IsSilentClosure};

use crate::fault::SubsetLimit;
use crate::known::Known;
use containers::{Items, Numbering};
use csp_base::{Event, Made, Stop};
use dl_limits::MOST_SETS;
use std::alloc::Global;
use term_sets::Prepared;

// The events of these steps, in rising order, each with the number of the set to which it leads. A set without a number
// gets the next one.
pub(crate) fn next_steps(
    alloc: Global,
    table: &Prepared<'_>,
    moves: &[(Event, u32)],
    sets: &mut Numbering<Items<u32>>,
    known: &mut Known,
) -> Result<Vec<(Event, u32)>, Stop<SubsetLimit>>
    requires order { IsNonDecreasingBy (λ step. step.0) moves.now }
    requires within { All (λ step. step.1 < table.now.count) moves.now }
    requires few { length sets.old ≤ MOST_SETS }
    requires ready { IsReady table.now sets.old known.old }
    ensures steps { IfOk result (λ next. AreNodeSteps table.now moves.now sets.new next.items) }
    ensures order { IfOk result (λ next. MeetsInOrder (length sets.old) (targets_of_steps next.items)
        (length sets.new)) }
    ensures more { AreMoreSets (IsSomeNextSet table.now moves.now) sets.old sets.new }
    ensures few { OnOk result (length sets.new ≤ MOST_SETS) }
    ensures ready { OnOk result (IsReady table.now sets.new known.new) }
    ensures limit { IfErr result (Tells (λ _. length sets.new ≡ MOST_SETS + 1)) }
{
    let mut next = Vec::new(alloc);
    let mut at = 0;
    while at < moves.len() {
        let event = moves[at].0;
        let end = group_end(moves, at);
        let number = number_of_next(alloc, table, &moves[at..end], sets, known)?;
        push(&mut next, event, number)?;
        at = end;
    }
    Ok(next)
}

// Where the steps by the event at a place end.
fn group_end(moves: &[(Event, u32)], at: usize) -> usize
    requires at { at < length moves.now }
    requires order { IsNonDecreasingBy (λ step. step.0) moves.now }
    ensures past { at < result }
    ensures within { result ≤ length moves.now }
    ensures same { (k : ℕ) → at ≤ k → k < result → (slice_index_or moves.now k (0, 0)).0
        ≡ (slice_index_or moves.now at (0, 0)).0 }
    ensures above { (k : ℕ) → result ≤ k → k < length moves.now
        → (slice_index_or moves.now at (0, 0)).0 < (slice_index_or moves.now k (0, 0)).0 }
{
    for end in at + 1..moves.len() {
        if moves[end].0 != moves[at].0 {
            return end;
        }
    }
    moves.len()
}

// The number of the set to which these steps lead, with silent steps behind them.
fn number_of_next(
    alloc: Global,
    table: &Prepared<'_>,
    moves: &[(Event, u32)],
    sets: &mut Numbering<Items<u32>>,
    known: &mut Known,
) -> Result<u32, Stop<SubsetLimit>>
    requires within { All (λ step. step.1 < table.now.count) moves.now }
    requires few { length sets.old ≤ MOST_SETS }
    requires ready { IsReady table.now sets.old known.old }
    ensures number { IfOk result (λ n. n < length sets.new) }
    ensures set { IfOk result (λ n. IsSilentClosure table.now (targets_of_steps moves.now) (set_at sets.new n)) }
    ensures order { IfOk result (λ n. MeetsInOrder (length sets.old) (n ∷ []) (length sets.new)) }
    ensures more { AreMoreSets (IsSilentClosure table.now (targets_of_steps moves.now)) sets.old sets.new }
    ensures few { OnOk result (length sets.new ≤ MOST_SETS) }
    ensures ready { OnOk result (IsReady table.now sets.new known.new) }
    ensures limit { IfErr result (Tells (λ _. length sets.new ≡ MOST_SETS + 1)) }
{
    let starts = targets(alloc, moves)?;
    if let Some(number) = known.find(&starts) {
        return Ok(number);
    }
    let number = number_of_closure(alloc, table, starts.as_slice(), sets, &mut known.marks)?;
    known.add(
        alloc,
        starts,
        number,
        sets.as_slice()[number as usize].len(),
    )?;
    Ok(number)
}

// The number of the set to which silent steps lead from the starts.
fn number_of_closure(
    alloc: Global,
    table: &Prepared<'_>,
    starts: &[u32],
    sets: &mut Numbering<Items<u32>>,
    marks: &mut Vec<bool>,
) -> Result<u32, Stop<SubsetLimit>>
    requires within { All (λ t. t < table.now.count) starts.now }
    requires few { length sets.old ≤ MOST_SETS }
    requires unmarked { IsUnmarked table.now.count marks.old.items }
    ensures number { IfOk result (λ n. n < length sets.new) }
    ensures set { IfOk result (λ n. IsSilentClosure table.now starts.now (set_at sets.new n)) }
    ensures order { IfOk result (λ n. MeetsInOrder (length sets.old) (n ∷ []) (length sets.new)) }
    ensures more { AreMoreSets (IsSilentClosure table.now starts.now) sets.old sets.new }
    ensures few { OnOk result (length sets.new ≤ MOST_SETS) }
    ensures unmarked { OnOk result (IsUnmarked table.now.count marks.new.items) }
    ensures limit { IfErr result (Tells (λ _. length sets.new ≡ MOST_SETS + 1)) }
{
    let set = table.silent_closure(alloc, starts, marks)?;
    let number = sets.number(set)?;
    if sets.len() > MOST_SETS {
        return Err(Stop::Told(SubsetLimit));
    }
    Ok(number as u32)
}

// The terms to which the steps lead.
fn targets(alloc: Global, moves: &[(Event, u32)]) -> Made<Items<u32>>
    ensures { IfOk result (λ found. found ≡ targets_of_steps moves.now) }
{
    let found = moves.iter().map(|step| step.1).collect(alloc)?;
    Ok(Items::from_vec(found))
}

// Adds a step at the end.
fn push(next: &mut Vec<(Event, u32)>, event: Event, number: u32) -> Made<()>
    ensures { OnOk result (next.new.items ≡ next.old.items ++ (event, number) ∷ []) }
{
    next.push((event, number))?;
    Ok(())
}
