//! The vertices that walks from given ones reach.

ghost use Rattle.std.specs.Prelude.{◌≡◌, [], ℕ, ◌<◌, ◌↔◌, All, nat_eq, length, IsTrue, IfOk, OnOk};
ghost use Rattle.std.specs.List.{IsDistinct};
ghost use Rattle.csp_base.specs.Members.{has};
ghost use Rattle.digraph.specs.Prelude.{HasArc, ReachesFrom, found_after, found_over};

use crate::rows::Rows;
use containers::Numbering;
use std::alloc::{AllocError, Global};

/// The vertices that walks from the sources reach, in the order found: the sources, and then the targets of each vertex that
/// is listed, in turn, where they are not listed yet.
///
/// It takes time linear in the number of sources, of vertices found and of their arcs (not proved), and no recursion.
pub fn reachable_from(
    alloc: Global,
    rows: &Rows,
    sources: &[u32],
) -> Result<Numbering<u32>, AllocError>
    requires { All (λ v. v < length rows.now) sources.now }
    ensures members { IfOk result (λ found. (v : ℕ)
        → IsTrue (has found v) ↔ ReachesFrom (HasArc rows.now) sources.now v) }
    ensures distinct { IfOk result (IsDistinct nat_eq) }
    ensures order { IfOk result (λ found. found ≡ found_over rows.now sources.now found) }
    ensures below { IfOk result (All (λ v. v < length rows.now)) }
{
    let mut found = Numbering::new(alloc);
    add_reached(rows, sources, &mut found)?;
    Ok(found)
}

// Adds them to none.
fn add_reached(rows: &Rows, sources: &[u32], found: &mut Numbering<u32>) -> Result<(), AllocError>
    requires none { found.old ≡ [] }
    requires sources { All (λ v. v < length rows.now) sources.now }
    ensures members { OnOk result ((v : ℕ) → IsTrue (has found.new v) ↔ ReachesFrom (HasArc rows.now) sources.now v) }
    ensures order { OnOk result (found.new ≡ found_over rows.now sources.now found.new) }
    ensures below { OnOk result (All (λ v. v < length rows.now) found.new) }
{
    add_all(found, sources)?;
    let mut place = 0;
    while place < found.len() {
        let v = found.as_slice()[place];
        add_all(found, rows.targets(v))?;
        place += 1;
    }
    Ok(())
}

// Adds those of the vertices that are new.
fn add_all(found: &mut Numbering<u32>, vertices: &[u32]) -> Result<(), AllocError>
    ensures { OnOk result (found.new ≡ found_after found.old vertices.now) }
{
    for v in vertices {
        found.number(*v)?;
    }
    Ok(())
}
