//! Containers that contracts see as what they hold: a boxed value, a row of items, rows that grow, values numbered as first seen.
#![tactic(auto)]

mod boxed;
mod exact;
mod items;
mod key;
mod numbering;
mod rows;

pub use boxed::Boxed;
pub use exact::Exact;
pub use items::Items;
pub use key::{Key, QuickKey};
pub use numbering::Numbering;
pub use rows::{empty_rows, push_at};
