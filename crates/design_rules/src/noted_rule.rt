//! The rules, with what a script notes for them.

use containers::Items;
use csp_tables::{RoleSets, UseSets};

/// A rule, with what a script notes for it of each component.
#[derive(Drop)]
pub enum NotedRule {
    /// Each component offers its links in a fixed circular order. Nothing is noted.
    Cyclic,

    /// Each link has a client and a server. The sets of requests and acknowledgements of each component are noted.
    ClientServer(Items<RoleSets>),

    /// Users acquire and release resources in a rising order. It is noted which components are resources, and what acquires
    /// and releases them.
    Resource(Items<UseSets>),
}
