//! The ranking of a network of clients and servers.

ghost use Rattle.std.specs.Prelude.{◌≡◌, ◌<◌, ◌≤◌, All, IfOk, length};
ghost use Rattle.csp_tables.specs.Prelude.{role_at};
ghost use Rattle.design_rules.specs.Prelude.{Serves, IsClientServerRanking};
ghost use Rattle.digraph.specs.Prelude.{AreHeights};
ghost use Rattle.dl_limits.specs.declared.TheConstants.{MOST_COMPONENTS};
ghost use Rattle.rule_rankings.specs.ClientServerRanks.{CanRank, IsRank, serving_rank};
ghost use Rattle.rule_rankings.specs.Rows.{IsRanked, NoLap};

use crate::rows::{Ranks, rank_parts};
use csp_base::{Event, EventSet, Made};
use csp_tables::{Ranking, RoleSets, Shape};
use digraph::Heights;
use shape_links::SortedShape;
use std::alloc::Global;

// What ranks clients and servers: their heights, and what is asked of them.
#[derive(Clone, Copy)]
struct Roles<'a> {
    shape: &'a Shape,
    roles: &'a [RoleSets],
    heights: &'a Heights,
}

/// The ranking with these heights of the parts.
pub fn client_server_ranking(
    alloc: Global,
    sorted: &SortedShape<'_>,
    roles: &[RoleSets],
    heights: &Heights,
) -> Made<Ranking>
    requires roles { length roles.now ≡ length sorted.now.parts }
    requires heights { AreHeights (Serves sorted.now roles.now) (length sorted.now.parts) heights.now }
    requires below { All (λ height. height < length sorted.now.parts) heights.now }
    ensures { IfOk result (λ ranking. IsClientServerRanking sorted.now roles.now ranking) }
{
    let shape = sorted.shape();
    let ranks = Roles {
        shape,
        roles,
        heights,
    };
    let parts = rank_parts(alloc, shape.parts(), &ranks)?;
    Ok(Ranking::new(0, parts))
}

impl<'a> Ranks for Roles<'a> {
    ghost can_rank = { λ r. CanRank r.shape.now r.roles.now r.heights.now };

    ghost is_rank = { λ r i. IsRanked r.shape.now.vocabulary (IsRank r.shape.now r.roles.now r.heights.now i) };

    ghost is_lap = { λ _. NoLap };

    fn rank(&self, part: u32, set: &EventSet) -> i64 {
        if !set.is_subset(self.shape.vocabulary()) {
            return 0;
        }
        let height = self.heights.of(part);
        if set.meets(requests_of(self.roles, part)) {
            return serving_rank(self.shape.parts().len() as u32, height);
        }
        if set.is_empty() {
            return 0;
        }
        i64::from(height)
    }

    fn lap(&self, _part: u32, _event: Event) -> u8 {
        0
    }
}

// The requests to the part as a server.
fn requests_of(roles: &[RoleSets], part: u32) -> &EventSet
    requires { part < length roles.now }
    ensures { result.now ≡ (role_at roles.now part).sreq }
{
    roles[part as usize].sreq()
}

// The rank where there are requests, by the number of parts.
fn serving_rank(count: u32, height: u32) -> i64
    requires few { count ≤ MOST_COMPONENTS }
    requires below { height < count }
    ensures { result ≡ serving_rank count height }
{
    2 * i64::from(count) - i64::from(height)
}
