//! What one node of a component's table shows: what is out of turn there, and how requests and acknowledgements are accepted.

ghost use Rattle.std.specs.Prelude.{◌≡◌, ◌||◌};
ghost use Rattle.std.specs.List.{list_any};
ghost use Rattle.csp_base.specs.Prelude.{meets_of};
ghost use Rattle.client_server_conditions.specs.Nodes.{is_in_turn, is_out_of_turn, refuses, splits, takes};

use csp_base::{Event, EventSet};
use csp_tables::RoleSets;

// Whether some step on the link is out of turn.
pub(crate) fn some_out_of_turn(
    next: &[(Event, u32)],
    shared: &EventSet,
    roles: &RoleSets,
    opened: bool,
) -> bool
    ensures { result ≡ list_any (is_out_of_turn shared.now roles.now opened) next.now }
{
    next.iter().any(|(event, _)| shared.contains(*event) && !in_turn(roles, *event, opened))
}

// Whether the event is an acknowledgement, where the link is open, or a request, where it is closed.
pub(crate) fn in_turn(roles: &RoleSets, event: Event, opened: bool) -> bool
    ensures { result ≡ is_in_turn roles.now opened event }
{
    if opened {
        return roles.cack().contains(event) || roles.sack().contains(event);
    }
    roles.creq().contains(event) || roles.sreq().contains(event)
}

// Whether some of these events, those of a link, is an acknowledgement.
pub(crate) fn some_acknowledged(shared: &EventSet, roles: &RoleSets) -> bool
    ensures { result ≡ (meets_of shared.now roles.now.cack || meets_of shared.now roles.now.sack) }
{
    shared.meets(roles.cack()) || shared.meets(roles.sack())
}

// Whether some acceptance in the vocabulary has a request and not all of them.
pub(crate) fn some_splits(accept: &[EventSet], vocabulary: &EventSet, requests: &EventSet) -> bool
    ensures { result ≡ list_any (splits vocabulary.now requests.now) accept.now }
{
    accept.iter().any(|set| {
        set.is_subset(vocabulary) && set.meets(requests) && !requests.is_subset(set)
    })
}

// Whether some acceptance in the vocabulary has a request.
pub(crate) fn some_takes(accept: &[EventSet], vocabulary: &EventSet, requests: &EventSet) -> bool
    ensures { result ≡ list_any (takes vocabulary.now requests.now) accept.now }
{
    accept
        .iter()
        .any(|set| set.is_subset(vocabulary) && set.meets(requests))
}

// Whether some acceptance in the vocabulary lacks an acknowledgement.
pub(crate) fn some_refuses(
    accept: &[EventSet],
    vocabulary: &EventSet,
    acknowledgements: &EventSet,
) -> bool
    ensures { result ≡ list_any (refuses vocabulary.now acknowledgements.now) accept.now }
{
    accept.iter().any(|set| set.is_subset(vocabulary) && !acknowledgements.is_subset(set))
}
