//! Scripts of networks that come in every size.
#![tactic(auto)]

pub mod families;

pub use families::{Family, family_script, greatest_size, least_size, name_of};
