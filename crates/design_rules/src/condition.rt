//! The conditions that the rules with notes make of components and links.

/// What the rules with notes ask of a component or of a link: S1 to S5 of clients and servers, U1 to U4 of users and resources.
#[derive(Clone, Copy, Debug)]
pub enum Condition {
    /// S1: the sets of roles part the events that the component shares.
    Roles,

    /// S2: each link has a client and a server.
    Clients,

    /// S3: requests and acknowledgements take turns on each link.
    Turns,

    /// S4: requests are taken all together, and none while a link to a client is open.
    Service,

    /// S5: while a link to a server is open, each of its acknowledgements is taken.
    Answers,

    /// U1: links join users and resources, and the sets of a resource part the events that it shares.
    Kinds,

    /// U2: a resource is acquired where it is free, and released by its holder where it is held.
    Holders,

    /// U3: a resource grants each acquisition where it is free, and each release of its holder where it is held.
    Grants,

    /// U4: a user acquires and releases each of its resources in turn.
    Uses,
}
