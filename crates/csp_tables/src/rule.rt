//! The design rules.

/// The rules by which a network is designed so that it cannot deadlock.
#[derive(Clone, Copy, PartialEq, Eq)]
pub enum Rule {
    /// Each component offers its links in a fixed circular order.
    Cyclic,

    /// Each link has a client, which requests, and a server, which acknowledges.
    ClientServer,

    /// Users acquire and release resources, in a rising order.
    Resource,
}
