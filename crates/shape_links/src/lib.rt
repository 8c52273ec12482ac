//! A shape, sorted out once: the links of each part, the link that has each event, and the steps that its runs have to follow;
//! the same with its resources, and which of them an event acquires; and circles, passed the other way round.
#![tactic(auto)]

mod acquisition;
mod circle;
mod component;
mod ends;
mod exploring;
mod odd_links;
mod owners;
mod reading;
mod requirement;
mod setting;
mod sorted_shape;
mod steps;

pub use acquisition::acquired_resource;
pub use circle::turn_circle;
pub use component::Component;
pub use odd_links::empty_sets;
pub use requirement::Requirement;
pub use setting::Setting;
pub use sorted_shape::SortedShape;
