//! That a network is free of deadlock, as it is reported.

ghost use Rattle.std.specs.Prelude.{◌≡◌, pos};
ghost use Rattle.design_rules.specs.RankCounts.{greatest_rank};
ghost use Rattle.judgement.specs.Counts.{node_count};
ghost use Rattle.report.specs.declared.answer.Done.TheVariants as done;

use crate::conclusion::Proved;
use crate::counts::{count_nodes, greatest};
use csp_tables::{Ranking, Rule};
use network_stages::Shaped;
use report::Done;

// That a network which is proved is free of deadlock, with its shape, by a rule with its ranking.
pub(crate) fn deadlock_free(
    rule: Rule,
    proved: &Proved,
    shaped: &Shaped<'_>,
    ranking: &Ranking,
) -> Done
    ensures { result ≡ done.DeadlockFree rule proved.now.components (node_count shaped.now.shape.parts)
        proved.now.bound (pos (greatest_rank ranking.now)) }
{
    Done::DeadlockFree {
        rule,
        components: proved.components(),
        nodes: count_nodes(shaped.shape().parts()),
        bound: proved.bound(),
        greatest_rank: greatest(ranking),
    }
}
