//! What an exploration found.

ghost use Rattle.std.specs.Prelude.{◌≡◌, ◌<◌, ◌∷◌, [], ℕ, List, None, IfOk, IfSome, IsSomeAnd, MatchOption, OnOk, length};
ghost use Rattle.csp_tables.specs.Table.{Node};
ghost use Rattle.observed_runs.specs.Prelude.{AreDistinct, AreFound, IsAdded, StepsTo, LeadsTo, pair_at};

use crate::pairs::Pairs;
use csp_base::{Event, Made, Trace};
use std::alloc::Global;
use std::marker::Model;

/// The pairs of a node and a state of an observer to which runs of a table lead, in the order in which they were found.
#[derive(Drop)]
pub struct Explored {
    pairs: Pairs,
    origins: Vec<(usize, Event)>,
}

impl Model for Explored {
    ghost use Rattle.observed_runs.specs.Exploration.{Found, HaveOrigins};

    ghost Value = { Found };

    ghost view = { λ e. record { pairs = e.pairs; origins = e.origins.items } };

    ghost invariant = { λ e. HaveOrigins (record { pairs = e.pairs; origins = e.origins.items }) };
}

impl Explored {
    // The pair from which runs begin.
    pub(crate) fn new(alloc: Global) -> Made<Explored>
        ensures { IfOk result (λ made. made ≡ record { pairs = (0, 0) ∷ []; origins = [] }) }
    {
        let mut pairs = Pairs::new(alloc);
        pairs.insert((0, 0))?;
        Ok(Explored {
            pairs,
            origins: Vec::new(alloc),
        })
    }

    // Lists the pair if it is new, with the place of the pair from which it was found and the event that led from there.
    pub(crate) fn add(&mut self, pair: (u32, u32), origin: (usize, Event)) -> Made<()>
        requires { origin.0 < length self.old.pairs }
        ensures { OnOk result (IsAdded self.old pair origin self.new) }
    {
        if self.pairs.contains(pair) {
            return Ok(());
        }
        self.origins.reserve(1)?;
        self.pairs.insert_new(pair)?;
        self.origins.push(origin)?;
        Ok(())
    }

    // How many pairs there are.
    pub(crate) fn len(&self) -> usize
        ensures count { result ≡ length self.now.pairs }
        ensures distinct { AreDistinct self.now.pairs }
    {
        self.pairs.as_slice().len()
    }

    /// The pairs of a node and a state.
    pub fn pairs(&self) -> &[(u32, u32)]
        ensures { result.now ≡ self.now.pairs }
    {
        self.pairs.as_slice()
    }

    /// A run that leads to the pair in this place.
    pub fn run_to(&self, alloc: Global, place: usize) -> Made<Trace>
        requires { place < length self.now.pairs }
        ensures { (table : List Node) (step : ℕ → ℕ → ℕ) (start : ℕ) → AreFound table step start self.now
            → IfOk result (λ run. LeadsTo table step start run (pair_at self.now.pairs place)) }
    {
        let mut events = Vec::new(alloc);
        let mut at = place;
        while at > 0 {
            let (earlier, event) = self.origin(at);
            events.push(event)?;
            at = earlier;
        }
        events.reverse();
        let run = Trace::from_slice(alloc, events.as_slice())?;
        Ok(run)
    }

    /// The place of the pair from which the one in this place was found, and the event that led from there.
    pub fn origin(&self, place: usize) -> (usize, Event)
        requires later { 0 < place }
        requires within { place < length self.now.pairs }
        ensures earlier { result.0 < place }
        ensures leads { (table : List Node) (step : ℕ → ℕ → ℕ) (start : ℕ) → AreFound table step start self.now
            → StepsTo table step (pair_at self.now.pairs result.0) result.1 (pair_at self.now.pairs place) }
    {
        self.origins[place - 1]
    }

    /// A run that leads to the pair in this place, if there is a place.
    pub fn run_if_any(&self, alloc: Global, place: Option<usize>) -> Made<Option<Trace>>
        requires { IfSome place (λ k. k < length self.now.pairs) }
        ensures { (table : List Node) (step : ℕ → ℕ → ℕ) (start : ℕ) → AreFound table step start self.now
            → IfOk result (λ run. MatchOption place (run ≡ None)
            (λ k. IsSomeAnd run (λ s. LeadsTo table step start s (pair_at self.now.pairs k)))) }
    {
        match place {
            Some(place) => self.run_to(alloc, place).map(Some),
            None => Ok(None),
        }
    }
}
