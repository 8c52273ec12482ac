//! A partition of the nodes into blocks that can be split, at the cost of the nodes that move. Blocks that were split wait
//! until they are used as splitters.

ghost use Rattle.std.specs.Prelude.{◌≡◌, ◌↔◌, ◌||◌, ◌+◌, ◌<◌, ◌≤◌, ◌^◌, ℕ, [], ◌∷◌, ◌++◌, false, true, replicate, length, All, slice_index, IsTrue, IfOk, OnOk, MatchOption};
ghost use Rattle.partitions.specs.Blocks.{count_of, state_of, HasBlocks, AreBoth, AreCut, AreMarked, AreTouched, IsCalm, IsCut, IsDone, IsMarked, IsSplit, IsTaken, IsWhole};
ghost use Rattle.csp_base.specs.Members.{has};
ghost use Rattle.partitions.specs.BlockSteps.{IsCalmed, IsDivided, with_block, with_mark, with_span, with_waiting};

use csp_base::Made;
use std::alloc::Global;

/// Nodes in blocks. The nodes stand in one list, block by block, and in each block those that are marked stand first.
#[derive(Drop)]
pub struct Partition {
    /// The nodes, block by block.
    pub order: Vec<u32>,
    /// Where each node stands among them.
    pub places: Vec<u32>,
    /// The block of each node.
    pub blocks: Vec<u32>,
    /// Where each block begins.
    pub firsts: Vec<u32>,
    /// Where the marked nodes of each block end.
    pub middles: Vec<u32>,
    /// Where each block ends.
    pub ends: Vec<u32>,
    /// The blocks that wait, the next one last.
    pub waiting: Vec<u32>,
    /// Whether each block waits.
    pub flags: Vec<bool>,
}

/// All nodes in one block, which waits.
pub fn whole(alloc: Global, count: u32) -> Made<Partition>
    ensures { IfOk result (λ made. IsWhole count (state_of made)) }
{
    let number = if count == 0 { 0 } else { 1 };
    let order = numbers_below(alloc, count)?;
    let places = numbers_below(alloc, count)?;
    let blocks = repeat(alloc, 0, count as usize)?;
    let firsts = repeat(alloc, 0, number)?;
    let middles = repeat(alloc, 0, number)?;
    let ends = repeat(alloc, count, number)?;
    let waiting = repeat(alloc, 0, number)?;
    let flags = all_set(alloc, number)?;
    Ok(Partition {
        order,
        places,
        blocks,
        firsts,
        middles,
        ends,
        waiting,
        flags,
    })
}

// As many times the value as `number` says.
fn repeat(alloc: Global, value: u32, number: usize) -> Made<Vec<u32>>
    ensures { IfOk result (λ made. made.items ≡ replicate number value) }
{
    vec![in alloc; value; number]
}

// As many flags as `number` says, each set.
fn all_set(alloc: Global, number: usize) -> Made<Vec<bool>>
    ensures { IfOk result (λ made. made.items ≡ replicate number true) }
{
    vec![in alloc; true; number]
}

// The numbers below `count`.
fn numbers_below(alloc: Global, count: u32) -> Made<Vec<u32>>
    ensures len { IfOk result (λ made. length made.items ≡ count) }
    ensures each { IfOk result (λ made. (i : ℕ) → i < count → slice_index made.items i ≡ i) }
{
    let mut made = Vec::new(alloc);
    for number in 0..count {
        made.push(number)?;
    }
    Ok(made)
}

impl Partition {
    /// The nodes of a block.
    pub fn members(&self, block: u32) -> &[u32]
        requires blocks { HasBlocks (count_of self.now) (state_of self.now) }
        requires block { block < length self.now.firsts.items }
        ensures { (i : ℕ) → IsTrue (has result.now i)
            ↔ ((i < count_of self.now) × (slice_index self.now.blocks.items i ≡ block)) }
    {
        let first = self.firsts[block as usize];
        let end = self.ends[block as usize];
        &self.order[first as usize..end as usize]
    }

    /// Takes the next block from those that wait.
    pub fn next_waiting(&mut self) -> Option<u32>
        requires { HasBlocks (count_of self.old) (state_of self.old) }
        ensures { MatchOption result (IsDone (state_of self.old) (state_of self.new)) (λ block.
            IsTaken (count_of self.old) (state_of self.old) (state_of self.new) block) }
    {
        let Some(block) = self.waiting.pop() else {
            return None;
        };
        self.flags[block as usize] = false;
        Some(block)
    }

    /// Splits each block into those of its nodes from which steps lead and the others. Both parts wait then.
    pub fn split(&mut self, alloc: Global, steps: &[(u32, u32)]) -> Made<()>
        requires blocks { HasBlocks (count_of self.old) (state_of self.old) }
        requires calm { IsCalm (state_of self.old) }
        requires sources { All (λ step. step.1 < count_of self.old) steps.now }
        ensures { OnOk result (IsSplit (count_of self.old) (state_of self.old) (state_of self.new) steps.now) }
    {
        let touched = self.mark_all(alloc, steps)?;
        self.cut_all(touched.as_slice())?;
        Ok(())
    }

    // Marks the nodes from which steps lead, and lists the blocks that have marked nodes.
    fn mark_all(&mut self, alloc: Global, steps: &[(u32, u32)]) -> Made<Vec<u32>>
        requires blocks { HasBlocks (count_of self.old) (state_of self.old) }
        requires calm { IsCalm (state_of self.old) }
        requires sources { All (λ step. step.1 < count_of self.old) steps.now }
        ensures { IfOk result (λ touched. AreMarked (count_of self.old) (state_of self.old)
            (state_of self.new) touched.items steps.now) }
    {
        let mut touched = Vec::new(alloc);
        for (_, source) in steps {
            self.mark(&mut touched, *source)?;
        }
        Ok(touched)
    }

    // Cuts the blocks that have marked nodes.
    fn cut_all(&mut self, touched: &[u32]) -> Made<()>
        requires blocks { HasBlocks (count_of self.old) (state_of self.old) }
        requires touched { AreTouched (state_of self.old) touched.now }
        ensures { OnOk result (AreCut (count_of self.old) (state_of self.old) (state_of self.new)) }
    {
        for block in touched {
            self.cut_block(*block)?;
        }
        Ok(())
    }

    // Marks a node. `touched` lists the blocks with marked nodes.
    fn mark(&mut self, touched: &mut Vec<u32>, node: u32) -> Made<()>
        requires blocks { HasBlocks (count_of self.old) (state_of self.old) }
        requires node { node < count_of self.old }
        requires touched { AreTouched (state_of self.old) touched.old.items }
        ensures marked { OnOk result (IsMarked (count_of self.old) (state_of self.old) (state_of self.new) node) }
        ensures touched { OnOk result (AreTouched (state_of self.new) touched.new.items) }
    {
        let block = self.blocks[node as usize];
        let middle = self.middles[block as usize];
        if self.places[node as usize] < middle {
            return Ok(());
        }
        if middle == self.firsts[block as usize] {
            push(touched, block)?;
        }
        self.advance(node);
        Ok(())
    }

    // Marks a node that isn't marked: it changes places with the first one of its block that isn't.
    fn advance(&mut self, node: u32)
        requires blocks { HasBlocks (count_of self.old) (state_of self.old) }
        requires node { node < count_of self.old }
        requires unmarked { slice_index self.old.middles.items
            (slice_index self.old.blocks.items node) ≤ slice_index self.old.places.items node }
        ensures { state_of self.new ≡ with_mark (state_of self.old) node }
    {
        let block = self.blocks[node as usize];
        let place = self.places[node as usize];
        let middle = self.middles[block as usize];
        let other = self.order[middle as usize];
        self.order[place as usize] = other;
        self.order[middle as usize] = node;
        self.places[other as usize] = place;
        self.places[node as usize] = middle;
        self.middles[block as usize] = middle + 1;
    }

    // Makes the marked nodes of a block a block of their own, unless all nodes or none are marked, and takes the marks away.
    fn cut_block(&mut self, block: u32) -> Made<()>
        requires blocks { HasBlocks (count_of self.old) (state_of self.old) }
        requires block { block < length self.old.firsts.items }
        ensures { OnOk result (IsCut (count_of self.old) (state_of self.old) (state_of self.new) block) }
    {
        let first = self.firsts[block as usize];
        let middle = self.middles[block as usize];
        if middle == first || middle == self.ends[block as usize] {
            self.calm(block);
            return Ok(());
        }
        self.cut_between(block)
    }

    // Takes the marks of a block away.
    fn calm(&mut self, block: u32)
        requires blocks { HasBlocks (count_of self.old) (state_of self.old) }
        requires block { block < length self.old.firsts.items }
        ensures { IsCalmed (state_of self.old) (state_of self.new) block }
    {
        self.middles[block as usize] = self.firsts[block as usize];
    }

    // Makes the marked nodes of a block a block of their own. Both blocks wait then.
    fn cut_between(&mut self, block: u32) -> Made<()>
        requires blocks { HasBlocks (count_of self.old) (state_of self.old) }
        requires block { block < length self.old.firsts.items }
        requires some { slice_index self.old.firsts.items block < slice_index self.old.middles.items block }
        requires not_all { slice_index self.old.middles.items block < slice_index self.old.ends.items block }
        ensures { OnOk result (IsCut (count_of self.old) (state_of self.old) (state_of self.new) block) }
    {
        let new = self.divide(block)?;
        let (larger, smaller) = self.by_size(block, new);
        self.wait(larger)?;
        self.wait(smaller)?;
        Ok(())
    }

    // The two blocks, the larger one first.
    fn by_size(&self, left: u32, right: u32) -> (u32, u32)
        requires blocks { HasBlocks (count_of self.now) (state_of self.now) }
        requires left { left < length self.now.firsts.items }
        requires right { right < length self.now.firsts.items }
        ensures { AreBoth left right result.0 result.1 }
    {
        if self.size(left) < self.size(right) {
            (right, left)
        } else {
            (left, right)
        }
    }

    // How many nodes a block has.
    fn size(&self, block: u32) -> u32
        requires blocks { HasBlocks (count_of self.now) (state_of self.now) }
        requires block { block < length self.now.firsts.items }
    {
        self.ends[block as usize] - self.firsts[block as usize]
    }

    // Makes the marked nodes of a block a block of their own, the last one, and answers its number.
    fn divide(&mut self, block: u32) -> Made<u32>
        requires blocks { HasBlocks (count_of self.old) (state_of self.old) }
        requires block { block < length self.old.firsts.items }
        ensures divided { OnOk result (IsDivided (state_of self.old) (state_of self.new) block) }
        ensures new { IfOk result (λ new. new ≡ length self.old.firsts.items) }
    {
        let first = self.firsts[block as usize];
        let middle = self.middles[block as usize];
        self.firsts[block as usize] = middle;
        let new = self.add_block(first, middle)?;
        assign(&self.order, &mut self.blocks, first, middle, new);
        Ok(new)
    }

    // Adds a block between two places, and answers its number. It has no marks, and doesn't wait.
    fn add_block(&mut self, first: u32, end: u32) -> Made<u32>
        requires { length self.old.firsts.items < 2 ^ 32 }
        ensures longer { OnOk result (state_of self.new ≡ with_block (state_of self.old) first end) }
        ensures new { IfOk result (λ new. new ≡ length self.old.firsts.items) }
    {
        let new = self.firsts.len() as u32;
        self.add_span(first, end)?;
        self.flags.push(false)?;
        Ok(new)
    }

    // Adds where a block without marks begins and ends.
    fn add_span(&mut self, first: u32, end: u32) -> Made<()>
        ensures { OnOk result (state_of self.new ≡ with_span (state_of self.old) first end) }
    {
        push(&mut self.firsts, first)?;
        push(&mut self.middles, first)?;
        push(&mut self.ends, end)?;
        Ok(())
    }

    // Lets a block wait, if it doesn't yet.
    fn wait(&mut self, block: u32) -> Made<()>
        requires { block < length self.old.flags.items }
        ensures { OnOk result (state_of self.new ≡ with_waiting (state_of self.old) block) }
    {
        if !self.flags[block as usize] {
            self.waiting.push(block)?;
            self.flags[block as usize] = true;
        }
        Ok(())
    }
}

// Adds a number at the end.
fn push(numbers: &mut Vec<u32>, number: u32) -> Made<()>
    ensures { OnOk result (numbers.new.items ≡ numbers.old.items ++ number ∷ []) }
{
    numbers.push(number)?;
    Ok(())
}

// Writes the block of the nodes that stand from `first` on below `middle`.
fn assign(order: &[u32], blocks: &mut [u32], first: u32, middle: u32, new: u32)
    requires ordered { first ≤ middle }
    requires bounds { middle ≤ length order.now }
    requires nodes { All (λ node. node < length blocks.old) order.now }
    ensures moved { (k : ℕ) → first ≤ k → k < middle → slice_index blocks.new (slice_index order.now k) ≡ new }
    ensures kept { (i : ℕ) → ((k : ℕ) → first ≤ k → k < middle → slice_index order.now k ≡ i → ⊥)
        → slice_index blocks.new i ≡ slice_index blocks.old i }
{
    for place in first..middle {
        blocks[order[place as usize] as usize] = new;
    }
}
