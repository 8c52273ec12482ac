//! Which of several targets a component goes to.

ghost use Rattle.std.specs.Prelude.{◌≡◌, ◌<◌, nat_eq, length, if◌then◌else◌};
ghost use Rattle.numbered_walks.specs.Prelude.{IsDrawn, next_number, place_among, targets};

use crate::numbers::{next_number, place_among};
use csp_base::Event;

/// The target to which a component goes, and the number that was drawn last.
#[derive(Clone, Copy)]
pub(crate) struct Drawn {
    pub(crate) to: u32,
    pub(crate) number: u32,
}

// The place among so many targets: the first for one target, and else the one that the next number chooses.
fn drawn_place(count: usize, number: u32) -> usize
    requires { 0 < count }
    ensures place { result ≡ (if nat_eq count 1 then 0 else place_among (next_number number) count) }
    ensures within { result < count }
{
    if count == 1 {
        return 0;
    }
    place_among(next_number(number), count)
}

// The number that was drawn last: for one target none is drawn.
fn after_draw(count: usize, number: u32) -> u32
    ensures { result ≡ (if nat_eq count 1 then number else next_number number) }
{
    if count == 1 {
        return number;
    }
    next_number(number)
}

/// The target of a silent step.
pub(crate) fn drawn_silently(targets: &[u32], number: u32) -> Drawn
    requires { 0 < length targets.now }
    ensures { IsDrawn targets.now number result.to result.number }
{
    Drawn {
        to: targets[drawn_place(targets.len(), number)],
        number: after_draw(targets.len(), number),
    }
}

/// The target of a step by an event, of which these are the steps.
pub(crate) fn drawn_by(steps: &[(Event, u32)], number: u32) -> Drawn
    requires { 0 < length steps.now }
    ensures { IsDrawn (targets steps.now) number result.to result.number }
{
    Drawn {
        to: steps[drawn_place(steps.len(), number)].1,
        number: after_draw(steps.len(), number),
    }
}
