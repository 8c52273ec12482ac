//! The limits of the language and of what is judged. Each has one name, which code, definitions and clauses cite.
#![tactic(auto)]

/// The most bytes of a script (a longer one is refused by 36).
pub const MOST_BYTES: u32 = 1_048_576;

/// The most brackets that are open at a place of a script (1).
pub const MOST_BRACKETS: u16 = 400;

/// The greatest depth of a tree of a script (1). Printing takes at most two brackets for each node, so twice the depth is at most the brackets.
pub const MOST_TREE_DEPTH: u16 = 200;

/// The greatest number that a script may write, and the greatest and, with a minus, the least that it may compute (1 where it is written, else 2).
pub const GREATEST_NUMBER: u32 = 1_000_000;

/// The most elements of a set (2).
pub const MOST_ELEMENTS: usize = 16_384;

/// The most bindings of a list of generators (2).
pub const MOST_BINDINGS: u32 = 1_048_576;

/// The greatest depth of a definition of data with all of its uses expanded (33).
pub const MOST_DATA_DEPTH: u32 = 800;

/// The most events of a script (9).
pub const MOST_EVENTS: u64 = 16_384;

/// The most components of a network (16).
pub const MOST_COMPONENTS: usize = 512;

/// The most nodes of a network that stand one inside another (34).
pub const MOST_NETWORK_DEPTH: u32 = 800;

/// The most terms that a component reaches (10).
pub const MOST_TERMS: usize = 16_384;

/// The greatest depth of a term that a component reaches (10).
pub const MOST_TERM_DEPTH: u32 = 800;

/// The most nodes of all terms that the components of a network reach, added up (10).
pub const MOST_NODES: u32 = 8_388_608;

/// The most steps of all terms that the components of a network reach (11).
pub const MOST_STEPS: u32 = 1_048_576;

/// The most sets of terms that the traces of a component lead to (13).
pub const MOST_SETS: usize = 2_048;
