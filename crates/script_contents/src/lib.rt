//! What the declarations of a script put into its program, while its channels have no field sets yet.
#![tactic(auto)]

mod channels;
mod content;
mod definitions;
mod notes;

pub use channels::types_of;
pub use content::plain_content;
