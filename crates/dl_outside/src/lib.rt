//! The outside as the checker sees it: a shelf that texts are loaded from, a sink that bytes are written to,
//! and what stands for them: memory, the system's files and the standard output.
#![tactic(auto)]

mod count;
mod fault_plan;
pub mod file_shelf;
pub mod memory_shelf;
pub mod memory_sink;
mod pieces;
pub mod quiet_shelf;
pub mod shelf;
pub mod sink;
pub mod std_sink;
pub mod sure_shelf;
pub mod sure_sink;
pub mod texts;

pub use count::Counts;
pub use file_shelf::FileShelf;
pub use memory_shelf::MemoryShelf;
pub use memory_sink::MemorySink;
pub use quiet_shelf::QuietShelf;
pub use shelf::{LoadFault, Shelf};
pub use sink::{Sink, SinkFault};
pub use std_sink::StdSink;
pub use sure_shelf::SureShelf;
pub use sure_sink::SureSink;
pub use texts::NamedText;
