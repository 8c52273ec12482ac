//! What the report of a network counts.

ghost use Rattle.std.specs.Prelude.{◌≡◌, ◌+◌, ◌<◌, length, map, max, pos};
ghost use Rattle.std.specs.List.{flat_map};
ghost use Rattle.csp_base.specs.Lists.{natural};
ghost use Rattle.design_rules.specs.RankCounts.{greatest_from, greatest_rank};
ghost use Rattle.judgement.specs.Counts.{node_count};

use csp_tables::{Part, PartRanks, Ranking};

// The number with the nodes of one more part.
fn with_nodes(count: u32, part: &Part) -> u32
    requires { count + length part.now.table < 4294967296 }
    ensures { result ≡ count + length part.now.table }
{
    count + part.table().len() as u32
}

// How many nodes the normal tables of the parts have together.
pub(crate) fn count_nodes(parts: &[Part]) -> u32
    requires { node_count parts.now < 4294967296 }
    ensures { result ≡ node_count parts.now }
{
    let mut count = 0;
    for part in parts {
        count = with_nodes(count, part);
    }
    count
}

// The rank as a number, 0 where it is below 0.
fn rank_number(rank: i64) -> u64
    ensures number { result ≡ natural rank }
    ensures small { result < 9223372036854775808 }
{
    if rank < 0 {
        return 0;
    }
    rank as u64
}

// The larger of a number and a rank.
fn larger(most: u64, rank: &i64) -> u64
    requires { most < 9223372036854775808 }
    ensures larger { result ≡ max most (natural rank.now) }
    ensures small { result < 9223372036854775808 }
{
    let rank = rank_number(*rank);
    if most < rank { rank } else { most }
}

// The greatest of a number and of these.
fn greatest_in_row(start: u64, row: &[i64]) -> u64
    requires { start < 9223372036854775808 }
    ensures greatest { result ≡ greatest_from start row.now }
    ensures small { result < 9223372036854775808 }
{
    let mut most = start;
    for rank in row {
        most = larger(most, rank);
    }
    most
}

// The same of the ranks in rows.
fn greatest_in_rows(start: u64, rows: &[Vec<i64>]) -> u64
    requires { start < 9223372036854775808 }
    ensures greatest { result ≡ greatest_from start (flat_map (λ row. row) (map (λ row. row.items) rows.now)) }
    ensures small { result < 9223372036854775808 }
{
    let mut most = start;
    for row in rows {
        most = greatest_in_row(most, row.as_slice());
    }
    most
}

// The same of the ranks of parts.
fn greatest_in_parts(start: u64, parts: &[PartRanks]) -> u64
    requires { start < 9223372036854775808 }
    ensures greatest { result ≡ greatest_from start (flat_map (λ part. flat_map (λ row. row) part.ranks) parts.now) }
    ensures small { result < 9223372036854775808 }
{
    let mut most = start;
    for part in parts {
        most = greatest_in_rows(most, part.ranks());
    }
    most
}

// The greatest rank of a ranking, 0 where there is none.
pub(crate) fn greatest(ranking: &Ranking) -> i64
    ensures { result ≡ pos (greatest_rank ranking.now) }
{
    greatest_in_parts(0, ranking.parts()) as i64
}
