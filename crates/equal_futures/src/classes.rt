//! Classes of nodes, numbered in the order in which they are first seen.

ghost use Rattle.std.specs.Prelude.{◌<◌, ◌^◌, length, IfOk};
ghost use Rattle.equal_futures.specs.Renumbered.{AreRenumbered};

use containers::Numbering;
use csp_base::Made;
use std::alloc::Global;

/// A class for each node of a table, numbered from 0 in the order in which they are first seen.
#[derive(Drop)]
pub struct Classes {
    /// The class of each node.
    pub numbers: Vec<u32>,
    /// How many classes there are.
    pub count: u32,
}

// A class for each block.
pub(crate) fn renumber(alloc: Global, blocks: &[u32]) -> Made<Classes>
    requires { length blocks.now < 2 ^ 32 }
    ensures { IfOk result (λ made. AreRenumbered blocks.now made.numbers.items made.count) }
{
    let mut numbering = Numbering::new(alloc);
    let mut numbers = Vec::new(alloc);
    for block in blocks {
        let number = numbering.number(*block)?;
        numbers.push(number as u32)?;
    }
    let count = numbering.len() as u32;
    Ok(Classes { numbers, count })
}
