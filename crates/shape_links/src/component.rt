//! One component of a shape.

ghost use Rattle.std.specs.Prelude.{◌<◌, length};

use crate::sorted_shape::SortedShape;

/// A component of a shape that is sorted out, by its number.
#[derive(Clone, Copy)]
pub struct Component<'a> {
    /// The shape.
    pub shape: &'a SortedShape<'a>,
    /// The number of the component, which is its place among the parts.
    pub number: u32,
    /// The component is one of the parts.
    pub ghost within: { number < length shape.now.parts },
}
