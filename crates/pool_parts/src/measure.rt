//! Depths and sizes, whose counting stops at 4,294,967,295, and numbers below which no name is read.

ghost use Rattle.std.specs.Prelude.{◌≡◌, ◌+◌, max, min, nat_eq};
ghost use Rattle.csp_program.specs.Free.{either, nowhere, Names};
ghost use Rattle.pool_parts.specs.Prelude.{capped, IsLow};

/// What is noted of a term or of a part of one.
#[derive(Clone, Copy)]
pub struct Measure {
    /// One more than the greatest depth of its parts.
    pub depth: u32,
    /// How many parts it has, itself included.
    pub size: u32,
    /// A number below which it reads no name: a value in place of such a name leaves it as it is.
    pub least: u32,
}

/// What no parts measure.
#[tactic(auto, using(crate::proofs::LowLemmas::none_low))]
pub fn leaf() -> Measure
    ensures depth { result.depth ≡ 0 }
    ensures size { result.size ≡ 0 }
    ensures low { IsLow result.least nowhere }
{
    Measure {
        depth: 0,
        size: 0,
        least: u32::MAX,
    }
}

/// What a name measures that is read.
#[tactic(auto, using(crate::proofs::LowLemmas::name_low))]
pub fn name(number: u32) -> Measure
    ensures depth { result.depth ≡ 0 }
    ensures size { result.size ≡ 0 }
    ensures low { IsLow result.least (nat_eq number) }
{
    Measure {
        depth: 0,
        size: 0,
        least: number,
    }
}

/// What parts measure together.
#[tactic(auto, using(crate::proofs::LowLemmas::low_either))]
pub fn join(left: Measure, right: Measure) -> Measure
    ensures depth { result.depth ≡ max left.depth right.depth }
    ensures size { result.size ≡ capped (left.size + right.size) }
    ensures least { result.least ≡ min left.least right.least }
    ensures low { (a b : Names) → IsLow left.least a → IsLow right.least b → IsLow result.least (either a b) }
{
    Measure {
        depth: maximum(left.depth, right.depth),
        size: left.size.saturating_add(right.size),
        least: minimum(left.least, right.least),
    }
}

fn maximum(left: u32, right: u32) -> u32
    ensures { result ≡ max left right }
{
    if left < right { right } else { left }
}

fn minimum(left: u32, right: u32) -> u32
    ensures { result ≡ min left right }
{
    if left < right { left } else { right }
}

/// What a process or an expression with these parts measures.
pub fn node(parts: Measure) -> Measure
    ensures depth { result.depth ≡ capped (1 + parts.depth) }
    ensures size { result.size ≡ capped (1 + parts.size) }
    ensures least { result.least ≡ parts.least }
{
    Measure {
        depth: parts.depth.saturating_add(1),
        size: parts.size.saturating_add(1),
        least: parts.least,
    }
}

/// What a field, a pair or a generator with these parts measures: it is no deeper than they are.
pub fn item(parts: Measure) -> Measure
    ensures depth { result.depth ≡ parts.depth }
    ensures size { result.size ≡ capped (1 + parts.size) }
    ensures least { result.least ≡ parts.least }
{
    Measure {
        depth: parts.depth,
        size: parts.size.saturating_add(1),
        least: parts.least,
    }
}

/// So many elements of a set.
#[tactic(auto, using(crate::proofs::LowLemmas::none_low))]
pub fn elements(count: usize) -> Measure
    ensures depth { result.depth ≡ 0 }
    ensures size { result.size ≡ capped count }
    ensures low { IsLow result.least nowhere }
{
    let size = if count < u32::MAX as usize {
        count as u32
    } else {
        u32::MAX
    };
    Measure {
        depth: 0,
        size,
        least: u32::MAX,
    }
}
