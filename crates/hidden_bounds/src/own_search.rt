//! A circle in the own graph of a table, looked for again each time that events have gone from it.

ghost use Rattle.std.specs.Prelude.{◌≡◌, ◌∷◌, ◌++◌, [], Some, true, IfNone, IfOk, IfSome, OnOk};
ghost use Rattle.hidden_bounds.specs.Own.{GoesRoundItself, IsLast, IsOwnHeight, IsOwnTrail, OwnArc};

use crate::own_graph::own_height;
use csp_base::{EventSet, Made};
use csp_tables::RawTable;
use std::alloc::Global;

// The own graph of a table over some events.
#[derive(Clone, Copy)]
struct OwnGraph<'a> {
    table: &'a RawTable,
    events: &'a EventSet,
}

// How far the search is with a term.
#[derive(Clone, Copy)]
enum Mark {
    // A walk from it may have no end.
    Open,
    // It stands on the trail.
    Passed,
    // Each walk from it ends, in this own graph and where events have gone.
    Ended,
}

// A term, and where those of its steps end that were not left behind: so many of the table's silent steps, and of those by events, stand before.
#[derive(Clone, Copy)]
struct Progress {
    mark: Mark,
    silent: usize,
    steps: usize,
}

// A step of a term: where it leads, whether it is in the own graph, and the term without it.
#[derive(Clone, Copy)]
struct Step {
    to: u32,
    is_own: bool,
    rest: Progress,
}

/// A search for a circle that follows steps from term to term and leaves those behind that lead to none. It can be taken up again where events have gone:
/// what is left behind stays there, so all the searches together look at each step once, and each of them at a term once.
///
/// A circle that it finds is there; that it finds none tells nothing.
#[derive(Drop)]
pub(crate) struct OwnSearch {
    terms: Vec<Progress>,
}

impl OwnSearch {
    /// None yet.
    pub fn new(alloc: Global) -> OwnSearch {
        OwnSearch {
            terms: Vec::new(alloc),
        }
    }

    /// The greatest number of steps of a walk in the own graph of a table, or none where that graph has a circle. Where the search finds one, the whole graph
    /// isn't looked at.
    pub fn height(
        &mut self,
        alloc: Global,
        table: &RawTable,
        events: &EventSet,
    ) -> Made<Option<u32>>
        ensures height { IfOk result (λ found. IfSome found (IsOwnHeight table.now events.now)) }
        ensures round { IfOk result (λ found. IfNone found (GoesRoundItself table.now events.now)) }
    {
        if self.finds_circle(alloc, table, events)? {
            return Ok(None);
        }
        let height = own_height(alloc, table, events)?;
        if height.is_none() {
            self.begin(alloc, table)?;
        }
        Ok(height)
    }

    // Before the first step. The steps of each term end behind its last one.
    fn begin(&mut self, alloc: Global, table: &RawTable) -> Made<()> {
        let unseen = Progress {
            mark: Mark::Open,
            silent: 0,
            steps: 0,
        };
        self.terms = vec![in alloc; unseen; table.count() as usize]?;
        self.end_silent(table);
        self.end_by_events(table);
        Ok(())
    }

    fn end_silent(&mut self, table: &RawTable) {
        for (place, step) in table.silent().iter().enumerate() {
            let silent = place.saturating_add(1);
            let progress = self.progress(step.0);
            self.set(step.0, Progress { silent, ..progress });
        }
    }

    fn end_by_events(&mut self, table: &RawTable) {
        for (place, step) in table.steps().iter().enumerate() {
            let steps = place.saturating_add(1);
            let progress = self.progress(step.0);
            self.set(step.0, Progress { steps, ..progress });
        }
    }

    // Whether a circle is found.
    fn finds_circle(&mut self, alloc: Global, table: &RawTable, events: &EventSet) -> Made<bool>
        ensures { IfOk result (λ found. found ≡ true → GoesRoundItself table.now events.now) }
    {
        let graph = OwnGraph { table, events };
        for first in 0..table.count() {
            if self.finds_from(alloc, &graph, first)? {
                return Ok(true);
            }
        }
        Ok(false)
    }

    // Whether one is found on walks from this term.
    fn finds_from(&mut self, alloc: Global, graph: &OwnGraph<'_>, first: u32) -> Made<bool>
        ensures { IfOk result (λ found. found ≡ true → GoesRoundItself graph.now.table.now graph.now.events.now) }
    {
        let Mark::Open = self.progress(first).mark else {
            return Ok(false);
        };
        let mut trail = Vec::new(alloc);
        self.enter(&mut trail, first)?;
        let found = self.follow(graph, &mut trail)?;
        self.leave_all(trail.as_slice());
        Ok(found)
    }

    // Follows steps until the trail leads round or is left. Each turn leaves a step behind, or a term comes to the trail or leaves it, each once at most.
    fn follow(&mut self, graph: &OwnGraph<'_>, trail: &mut Vec<u32>) -> Made<bool>
        requires trail { IsOwnTrail graph.now.table.now graph.now.events.now trail.old.items }
        ensures round { IfOk result (λ found. found ≡ true → GoesRoundItself graph.now.table.now graph.now.events.now) }
    {
        for _turn in 0..most_turns(graph.table) {
            if let Some(found) = self.turn(graph, trail)? {
                return Ok(found);
            }
        }
        Ok(false)
    }

    // Follows a step from the last term, or leaves the step or the term behind; or tells whether the trail leads round.
    fn turn(&mut self, graph: &OwnGraph<'_>, trail: &mut Vec<u32>) -> Made<Option<bool>>
        requires trail { IsOwnTrail graph.now.table.now graph.now.events.now trail.old.items }
        ensures trail { OnOk result (IsOwnTrail graph.now.table.now graph.now.events.now trail.new.items) }
        ensures round { IfOk result (λ turn. turn ≡ Some true
            → GoesRoundItself graph.now.table.now graph.now.events.now) }
    {
        let Some(last) = trail.last().copied() else {
            return Ok(Some(false));
        };
        match last_step(graph, last, self.progress(last)) {
            Some(step) => self.take(graph, trail, last, step),
            None => {
                self.mark(last, Mark::Ended);
                trail.pop();
                Ok(None)
            }
        }
    }

    // Does so with a step.
    fn take(
        &mut self,
        graph: &OwnGraph<'_>,
        trail: &mut Vec<u32>,
        last: u32,
        step: Step,
    ) -> Made<Option<bool>>
        requires trail { IsOwnTrail graph.now.table.now graph.now.events.now trail.old.items }
        requires own { step.is_own ≡ true → OwnArc graph.now.table.now graph.now.events.now last step.to }
        requires last { IsLast trail.old.items last }
        ensures trail { OnOk result (IsOwnTrail graph.now.table.now graph.now.events.now trail.new.items) }
        ensures round { IfOk result (λ turn. turn ≡ Some true
            → GoesRoundItself graph.now.table.now graph.now.events.now) }
    {
        if !step.is_own {
            self.set(last, step.rest);
            return Ok(None);
        }
        match self.progress(step.to).mark {
            Mark::Open => {
                self.enter(trail, step.to)?;
                Ok(None)
            }
            Mark::Passed => Ok(Some(trail.as_slice().contains(&step.to))),
            Mark::Ended => {
                self.set(last, step.rest);
                Ok(None)
            }
        }
    }

    // A term comes to the trail.
    fn enter(&mut self, trail: &mut Vec<u32>, term: u32) -> Made<()>
        ensures { OnOk result (trail.new.items ≡ trail.old.items ++ term ∷ []) }
    {
        self.mark(term, Mark::Passed);
        trail.push(term)?;
        Ok(())
    }

    // The terms of a trail can be passed again.
    fn leave_all(&mut self, trail: &[u32]) {
        for term in trail {
            self.mark(*term, Mark::Open);
        }
    }

    fn mark(&mut self, term: u32, mark: Mark) {
        let progress = self.progress(term);
        self.set(term, Progress { mark, ..progress });
    }

    fn progress(&self, term: u32) -> Progress {
        match self.terms.get(term as usize) {
            Some(progress) => *progress,
            None => Progress {
                mark: Mark::Ended,
                silent: 0,
                steps: 0,
            },
        }
    }

    fn set(&mut self, term: u32, progress: Progress) {
        if let Some(old) = self.terms.get_mut(term as usize) {
            *old = progress;
        }
    }
}

// So many turns are enough.
fn most_turns(table: &RawTable) -> usize {
    let steps = table.silent().len().saturating_add(table.steps().len());
    (table.count() as usize)
        .saturating_mul(2)
        .saturating_add(steps)
        .saturating_add(1)
}

// The last step of a term that is left, where one is.
fn last_step(graph: &OwnGraph<'_>, term: u32, progress: Progress) -> Option<Step>
    ensures { IfSome result (λ step. step.is_own ≡ true
        → OwnArc graph.now.table.now graph.now.events.now term step.to) }
{
    match last_silent(graph, term, progress) {
        Some(step) => Some(step),
        None => last_by_event(graph, term, progress),
    }
}

fn last_silent(graph: &OwnGraph<'_>, term: u32, progress: Progress) -> Option<Step>
    ensures { IfSome result (λ step. OwnArc graph.now.table.now graph.now.events.now term step.to) }
{
    let place = progress.silent.checked_sub(1)?;
    let (from, to) = *graph.table.silent().get(place)?;
    if from != term {
        return None;
    }
    let rest = Progress {
        silent: place,
        ..progress
    };
    Some(Step {
        to,
        is_own: true,
        rest,
    })
}

fn last_by_event(graph: &OwnGraph<'_>, term: u32, progress: Progress) -> Option<Step>
    ensures { IfSome result (λ step. step.is_own ≡ true
        → OwnArc graph.now.table.now graph.now.events.now term step.to) }
{
    let place = progress.steps.checked_sub(1)?;
    let (from, event, to) = *graph.table.steps().get(place)?;
    if from != term {
        return None;
    }
    let rest = Progress {
        steps: place,
        ..progress
    };
    Some(Step {
        to,
        is_own: graph.events.contains(event),
        rest,
    })
}
