//! Nodes of a part, with the form of their steps.

ghost use Rattle.std.specs.Prelude.{◌≡◌, ◌<◌, ◌≤◌, IfNone, IfSome, length};
ghost use Rattle.csp_tables.specs.Prelude.{HasForm, StepsHaveForm, node_at};

use csp_tables::{NormNode, Part};

// The node of the part with this number, if there is one.
#[tactic(auto, using(crate::proofs::Following::past_end, crate::proofs::Following::steps_form))]
pub(crate) fn node_of(part: &Part, number: u32) -> Option<&NormNode>
    ensures there { IfSome result (λ node. number < length part.now.table) }
    ensures node { IfSome result (λ node. node.now ≡ node_at part.now.table number) }
    ensures form { HasForm part.now → IfSome result
        (λ node. StepsHaveForm part.now.alphabet (length part.now.table) node.now.next) }
    ensures past { IfNone result (length part.now.table ≤ number) }
{
    match part.table().get(number) {
        Some(node) => Some(node),
        None => None,
    }
}
