//! Blocks of 64 events: the work of event sets, over slices and vectors of blocks.

ghost use Rattle.std.specs.Prelude.{◌≡◌, ◌==◌, ◌||◌, nat_eq, nat_le, ℕ, ◌≤◌, length, take, drop, true, false, IfOk, OnOk, OnErr};
ghost use Rattle.csp_base.specs.Standard.{OnTrue, OnFalse, pointwise, find};
ghost use Rattle.csp_base.specs.Prelude.{AreBlocks, AreBlocksFrom, word_at, events_of, has, is_subset_of, meets_of, combined_of, keeps, least_of, first_word, rest_after, with_word, end_from};

use crate::Made;
use crate::event_set::Event;
use crate::operators::SetOp;
use std::alloc::Global;

/// The word of the result at one block, from the words of both sets there.
fn combine_words(operation: SetOp, left: u64, right: u64) -> u64
    ensures { result ≡ combined_of operation left right }
{
    match operation {
        SetOp::Union => left | right,
        SetOp::Inter => left & right,
        SetOp::Diff => left & !right,
    }
}

/// The least number of a block of either list.
fn least_number(left: &[(u32, u64)], right: &[(u32, u64)]) -> u32
    ensures { result ≡ least_of left.now right.now }
{
    if left.is_empty() {
        return if right.is_empty() { 0 } else { right[0].0 };
    }
    if right.is_empty() || left[0].0 < right[0].0 {
        left[0].0
    } else {
        right[0].0
    }
}

/// The word of the first block, where it has that number, and 0 where it doesn't.
fn word_at_front(blocks: &[(u32, u64)], number: u32) -> u64
    ensures { result ≡ first_word blocks.now number }
{
    if blocks.is_empty() || blocks[0].0 != number {
        0
    } else {
        blocks[0].1
    }
}

/// The blocks without the first, where it has that number.
fn past_front(blocks: &[(u32, u64)], number: u32) -> &[(u32, u64)]
    ensures { result.now ≡ rest_after blocks.now number }
{
    if blocks.is_empty() || blocks[0].0 != number {
        blocks
    } else {
        &blocks[1..]
    }
}

/// Adds a block at the end, unless its word is 0.
fn push_word(blocks: &mut Vec<(u32, u64)>, number: u32, word: u64) -> Made<()>
    ensures ok { OnOk result (blocks.new.items ≡ with_word blocks.old.items number word) }
    ensures err { OnErr result (blocks.new.items ≡ blocks.old.items) }
{
    if word != 0 {
        blocks.push((number, word))?;
    }
    Ok(())
}

/// The blocks of the operation on both, in a walk over both.
pub(crate) fn merge_blocks(
    alloc: Global,
    operation: SetOp,
    left: &[(u32, u64)],
    right: &[(u32, u64)],
) -> Made<Vec<(u32, u64)>>
    requires left_blocks { AreBlocks left.now }
    requires right_blocks { AreBlocks right.now }
    ensures blocks { IfOk result (λ made. AreBlocks made.items) }
    ensures members { IfOk result (λ made. (x : ℕ)
        → has (events_of made.items) x ≡ keeps operation (has (events_of left.now) x) (has (events_of right.now) x)) }
{
    let mut made = Vec::new(alloc);
    let mut first = left;
    let mut second = right;
    while first.len() + second.len() > 0 {
        let number = least_number(first, second);
        let word = combine_words(
            operation,
            word_at_front(first, number),
            word_at_front(second, number),
        );
        push_word(&mut made, number, word)?;
        first = past_front(first, number);
        second = past_front(second, number);
    }
    Ok(made)
}

/// The first place whose block has that number or a higher one, by binary search.
fn place_of(blocks: &[(u32, u64)], number: u32) -> usize
    requires { AreBlocks blocks.now }
    ensures within { result ≤ length blocks.now }
    ensures before { end_from 0 (take result blocks.now) ≤ number }
    ensures after { AreBlocksFrom number (drop result blocks.now) }
{
    let mut low = 0;
    let mut high = blocks.len();
    while low < high {
        let middle = low + (high - low) / 2;
        if blocks[middle].0 < number {
            low = middle + 1;
        } else {
            high = middle;
        }
    }
    low
}

/// The blocks from that number on.
fn blocks_from(blocks: &[(u32, u64)], number: u32) -> &[(u32, u64)]
    requires { AreBlocks blocks.now }
    ensures after { AreBlocksFrom number result.now }
    ensures words { (b : ℕ) → number ≤ b → word_at result.now b ≡ word_at blocks.now b }
{
    let place = place_of(blocks, number);
    &blocks[place..]
}

/// The blocks from that number on, where the front is often at it or just below.
fn ahead(blocks: &[(u32, u64)], number: u32) -> &[(u32, u64)]
    requires { AreBlocks blocks.now }
    ensures after { AreBlocksFrom number result.now }
    ensures words { (b : ℕ) → number ≤ b → word_at result.now b ≡ word_at blocks.now b }
{
    if blocks.is_empty() || number <= blocks[0].0 {
        return blocks;
    }
    if blocks.len() == 1 || number <= blocks[1].0 {
        return &blocks[1..];
    }
    blocks_from(blocks, number)
}

/// Whether an operation that keeps nothing of the right alone has a member: a walk over the left that ends at the first.
fn gives_any(operation: SetOp, left: &[(u32, u64)], right: &[(u32, u64)]) -> bool
    requires of_left { keeps operation false true ≡ false }
    requires left_blocks { AreBlocks left.now }
    requires right_blocks { AreBlocks right.now }
    ensures found { OnTrue result ((x : ℕ)
        × (keeps operation (has (events_of left.now) x) (has (events_of right.now) x) ≡ true)) }
    ensures none { OnFalse result ((x : ℕ) → keeps operation (has (events_of left.now) x) (has (events_of right.now) x)
        ≡ false) }
{
    let mut first = left;
    let mut second = right;
    while !first.is_empty() {
        let number = first[0].0;
        second = ahead(second, number);
        if combine_words(operation, first[0].1, word_at_front(second, number)) != 0 {
            return true;
        }
        first = &first[1..];
        second = past_front(second, number);
    }
    false
}

/// Whether each event of the first is one of the second.
pub(crate) fn is_subset(left: &[(u32, u64)], right: &[(u32, u64)]) -> bool
    requires left_blocks { AreBlocks left.now }
    requires right_blocks { AreBlocks right.now }
    ensures { result ≡ is_subset_of (events_of left.now) (events_of right.now) }
{
    !gives_any(SetOp::Diff, left, right)
}

/// Whether an event of the first is one of the second.
pub(crate) fn meets(left: &[(u32, u64)], right: &[(u32, u64)]) -> bool
    requires left_blocks { AreBlocks left.now }
    requires right_blocks { AreBlocks right.now }
    ensures { result ≡ meets_of (events_of left.now) (events_of right.now) }
{
    gives_any(SetOp::Inter, left, right)
}

/// Whether the event is a member.
pub(crate) fn contains(blocks: &[(u32, u64)], event: u32) -> bool
    requires { AreBlocks blocks.now }
    ensures { result ≡ has (events_of blocks.now) event }
{
    let number = event / 64;
    let word = word_at_front(blocks_from(blocks, number), number);
    (word >> (event % 64)) & 1 == 1
}

/// The first event of all.
fn first_event(blocks: &[(u32, u64)]) -> Option<u32>
    requires { AreBlocks blocks.now }
    ensures { result ≡ find (nat_le 0) (events_of blocks.now) }
{
    if blocks.is_empty() {
        return None;
    }
    Some(blocks[0].0 * 64 + blocks[0].1.trailing_zeros())
}

/// The first event that is not below the given one.
pub(crate) fn first_from(blocks: &[(u32, u64)], event: u32) -> Option<u32>
    requires { AreBlocks blocks.now }
    ensures { result ≡ find (nat_le event) (events_of blocks.now) }
{
    let number = event / 64;
    let rest = blocks_from(blocks, number);
    let word = word_at_front(rest, number) & (u64::MAX << (event % 64));
    if word != 0 {
        return Some(number * 64 + word.trailing_zeros());
    }
    first_event(past_front(rest, number))
}

/// Adds an event, where it isn't there yet. An error changes nothing.
pub(crate) fn include(blocks: &mut Vec<(u32, u64)>, event: u32) -> Made<()>
    requires { AreBlocks blocks.old.items }
    ensures blocks { AreBlocks blocks.new.items }
    ensures members { OnOk result ((x : ℕ) → has (events_of blocks.new.items) x
        ≡ (event == x || has (events_of blocks.old.items) x)) }
    ensures err { OnErr result (blocks.new.items ≡ blocks.old.items) }
{
    let number = event / 64;
    let bit = 1 << (event % 64);
    let place = place_of(blocks, number);
    let word = word_at_front(&blocks[place..], number);
    if word != 0 {
        blocks[place] = (number, word | bit);
    } else {
        blocks.insert(place, (number, bit))?;
    }
    Ok(())
}

/// Whether both lists have the same events.
pub(crate) fn same(left: &[(u32, u64)], right: &[(u32, u64)]) -> bool
    requires left_blocks { AreBlocks left.now }
    requires right_blocks { AreBlocks right.now }
    ensures { result ≡ pointwise nat_eq (events_of left.now) (events_of right.now) }
{
    left == right
}

/// The blocks of the given events, in any order.
pub(crate) fn blocks_of_events(alloc: Global, events: &[Event]) -> Made<Vec<(u32, u64)>>
    ensures blocks { IfOk result (λ made. AreBlocks made.items) }
    ensures members { IfOk result (λ made. (x : ℕ) → has (events_of made.items) x ≡ has events.now x) }
{
    let mut made = Vec::new(alloc);
    for event in events {
        include(&mut made, event.0)?;
    }
    Ok(made)
}
