//! Pairs of numbers in the order in which they are first seen.

ghost use Rattle.std.specs.Prelude.{◌≡◌, ◌<◌, ◌≤◌, ◌++◌, ◌∷◌, [], ℕ, length, IfOk, MatchBool, OnErr, OnOk, if◌then◌else◌};
ghost use Rattle.observed_runs.specs.Prelude.{HasPair, AreDistinct, is_marked};

use csp_base::{Event, EventSet, Made};
use std::alloc::Global;
use std::marker::Model;

/// Pairs of numbers in the order in which they are first seen, each once. Contracts see the list of them.
#[derive(Drop)]
pub struct Pairs {
    alloc: Global,
    pairs: Vec<(u32, u32)>,
    // for each first number the second ones
    seen: Vec<EventSet>,
}

impl Model for Pairs {
    ghost use Rattle.std.specs.Prelude.{List, ℕ};
    ghost use Rattle.observed_runs.specs.Marks.{AreMarked};

    ghost Value = { List (ℕ × ℕ) };

    ghost view = { λ p. p.pairs.items };

    ghost invariant = { λ p. AreMarked p.pairs.items p.seen.items };
}

impl Pairs {
    /// No pairs.
    pub fn new(alloc: Global) -> Pairs
        ensures { result ≡ [] }
    {
        Pairs {
            alloc,
            pairs: Vec::new(alloc),
            seen: Vec::new(alloc),
        }
    }

    /// The pairs.
    pub fn as_slice(&self) -> &[(u32, u32)]
        ensures value { result.now ≡ self.now }
        ensures distinct { AreDistinct self.now }
    {
        self.pairs.as_slice()
    }

    /// Whether the pair is there.
    pub fn contains(&self, pair: (u32, u32)) -> bool
        ensures { MatchBool result (HasPair self.now pair) (HasPair self.now pair → ⊥) }
    {
        has_mark(&self.seen, pair)
    }

    /// Puts the pair at the end if it is new, and answers whether it is.
    pub fn insert(&mut self, pair: (u32, u32)) -> Made<bool>
        ensures added { IfOk result (λ new. self.new ≡ (if new then self.old ++ pair ∷ [] else self.old)) }
        ensures listed { OnOk result (HasPair self.new pair) }
        ensures same { OnErr result (self.new ≡ self.old) }
    {
        if self.contains(pair) {
            return Ok(false);
        }
        self.insert_new(pair)?;
        Ok(true)
    }

    /// Puts a pair at the end that is not there.
    pub fn insert_new(&mut self, pair: (u32, u32)) -> Made<()>
        requires { HasPair self.old pair → ⊥ }
        ensures ok { OnOk result (self.new ≡ self.old ++ pair ∷ []) }
        ensures err { OnErr result (self.new ≡ self.old) }
    {
        make_room(self.alloc, &mut self.seen, pair.0)?;
        self.pairs.reserve(1)?;
        self.seen[pair.0 as usize].insert(Event(pair.1))?;
        self.pairs.push(pair)?;
        Ok(())
    }
}

// Whether the pair has a mark.
fn has_mark(seen: &[EventSet], pair: (u32, u32)) -> bool
    ensures { result ≡ is_marked seen.now pair.0 pair.1 }
{
    match seen.get(pair.0 as usize) {
        Some(seconds) => seconds.contains(Event(pair.1)),
        None => false,
    }
}

// Makes room for marks at this first number.
fn make_room(alloc: Global, seen: &mut Vec<EventSet>, first: u32) -> Made<()>
    ensures room { OnOk result (first < length seen.new.items) }
    ensures same { (n s : ℕ) → is_marked seen.new.items n s ≡ is_marked seen.old.items n s }
{
    while seen.len() <= first as usize {
        seen.push(EventSet::new(alloc))?;
    }
    Ok(())
}
