//! The members of a set, one after another.

ghost use Rattle.std.specs.Prelude.{◌≡◌, ◌≢◌, ◌*◌, ◌+◌, ◌<◌, ◌^◌, ◌++◌, [], ◌∷◌, ℕ, List};
ghost use Rattle.csp_base.specs.Standard.{trailing_zeros, w64, YieldsFirst, item_count};
ghost use Rattle.csp_base.specs.Blocks.{AreBlocks, AreBlocksFrom, events_of, word_events};

use crate::event_set::Event;
use std::marker::Model;

/// An iterator over the members of a set in rising order. Contracts see the list of those that are left.
#[derive(Drop)]
pub struct Members<'a> {
    number: u32,
    word: u64,
    rest: &'a [(u32, u64)],
}

impl<'a> Model for Members<'a> {
    ghost use Rattle.std.specs.Prelude.{◌*◌, ◌+◌, ◌<◌, ◌^◌, ◌++◌, List, ℕ};
    ghost use Rattle.csp_base.specs.Blocks.{AreBlocksFrom, events_of, word_events};

    ghost Value = { List ℕ };

    ghost view = { λ m. word_events 64 (64 * m.number) m.word ++ events_of m.rest.now };

    ghost invariant = { λ m. (m.number < 2 ^ 26) × (m.word < 2 ^ 64) × AreBlocksFrom (m.number + 1) m.rest.now };
}

/// The first block, apart from the others. Where there is none, a block without events.
fn first_block(blocks: &[(u32, u64)]) -> (u32, u64, &[(u32, u64)])
    requires { AreBlocks blocks.now }
    ensures number { result.0 < 2 ^ 26 }
    ensures rest { AreBlocksFrom (result.0 + 1) result.2.now }
    ensures events { word_events 64 (64 * result.0) result.1 ++ events_of result.2.now ≡ events_of blocks.now }
    ensures none { result.1 ≡ 0 → events_of blocks.now ≡ [] }
{
    if blocks.is_empty() {
        (0, 0, blocks)
    } else {
        (blocks[0].0, blocks[0].1, &blocks[1..])
    }
}

/// The same events, where the first block has one unless there are none.
fn without_empty_block(number: u32, word: u64, rest: &[(u32, u64)]) -> (u32, u64, &[(u32, u64)])
    requires number { number < 2 ^ 26 }
    requires rest { AreBlocksFrom (number + 1) rest.now }
    ensures number { result.0 < 2 ^ 26 }
    ensures rest { AreBlocksFrom (result.0 + 1) result.2.now }
    ensures events { word_events 64 (64 * result.0) result.1 ++ events_of result.2.now
        ≡ word_events 64 (64 * number) word ++ events_of rest.now }
    ensures none { result.1 ≡ 0 → word_events 64 (64 * number) word ++ events_of rest.now ≡ [] }
{
    if word != 0 {
        return (number, word, rest);
    }
    first_block(rest)
}

/// The word without its lowest bit.
fn without_lowest(word: u64) -> u64
    requires { word ≢ 0 }
    ensures { (from : ℕ) → word_events 64 from word ≡ (from + trailing_zeros w64 word) ∷ word_events 64 from result }
{
    word & !(1 << word.trailing_zeros())
}

impl<'a> Members<'a> {
    /// The events of these blocks.
    pub(crate) fn new(blocks: &'a [(u32, u64)]) -> Self
        requires { AreBlocks blocks.now }
        ensures { result ≡ events_of blocks.now }
    {
        let (number, word, rest) = first_block(blocks);
        Members { number, word, rest }
    }
}

impl<'a> Iterator for Members<'a> {
    type Item = Event;

    ghost next_gives = { YieldsFirst (λ m. m) };

    ghost remaining = { item_count (λ m. m) };

    fn next(&mut self) -> Option<Event> {
        let (number, word, rest) = without_empty_block(self.number, self.word, self.rest);
        if word == 0 {
            return None;
        }
        self.number = number;
        self.word = without_lowest(word);
        self.rest = rest;
        Some(Event(number * 64 + word.trailing_zeros()))
    }
}
