//! What a condition asks of one component of a network.

ghost use Rattle.std.specs.Prelude.{◌<◌, length};

use crate::conditions::RunCondition;
use crate::network::Network;

// A condition, and the component that has to keep it.
#[derive(Clone, Copy)]
pub(crate) struct Duty<'a> {
    pub(crate) network: &'a Network<'a>,
    pub(crate) condition: RunCondition,
    pub(crate) part: u32,
    ghost within: { part < length network.now.shape.parts },
}
