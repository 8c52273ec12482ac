//! What is known of each component while components are taken.

ghost use Rattle.std.specs.Prelude.{◌≡◌, ◌≤◌, ◌++◌, length, IfOk, OnOk};
ghost use Rattle.dl_limits.specs.declared.TheConstants.{MOST_COMPONENTS};
ghost use Rattle.hidden_bounds.specs.Standings.{left_from, left_one, reopened_to};

use csp_base::Made;
use std::alloc::Global;

// What is known of a component: nothing, that its own graph over those taken goes round, or that it is taken.
#[derive(Clone, Copy, PartialEq, Eq)]
pub(crate) enum Standing {
    Unknown,
    Round,
    Taken,
}

// What is known of a component after one is taken with which it has a hidden event in common, or has none.
pub(crate) fn reopen_standing(standing: Standing, shares: bool) -> Standing
    ensures { result ≡ reopened_to standing shares }
{
    match standing {
        Standing::Unknown => Standing::Unknown,
        Standing::Round => {
            if shares {
                Standing::Unknown
            } else {
                Standing::Round
            }
        }
        Standing::Taken => Standing::Taken,
    }
}

// Adds a component where it is not taken.
fn add_left(parts: &mut Vec<u32>, part: u32, standing: Standing) -> Made<()>
    ensures { OnOk result (parts.new.items ≡ parts.old.items ++ left_one part standing) }
{
    if standing == Standing::Taken {
        return Ok(());
    }
    parts.push(part)?;
    Ok(())
}

// The components that are not taken, rising.
pub(crate) fn left_over(alloc: Global, standings: &[Standing]) -> Made<Vec<u32>>
    requires { length standings.now ≤ MOST_COMPONENTS }
    ensures { IfOk result (λ parts. parts.items ≡ left_from 0 standings.now) }
{
    let mut parts = Vec::new(alloc);
    for part in 0..standings.len() {
        add_left(&mut parts, part as u32, standings[part])?;
    }
    Ok(parts)
}
