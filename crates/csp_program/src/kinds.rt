//! Why an expression has no value.

/// The kinds of fault of an expression that has no value.
#[derive(Clone, Copy, Debug, PartialEq, Eq)]
pub enum ValueKind {
    /// A number below -1,000,000 or above 1,000,000.
    Range,
    /// A divisor below 1.
    Division,
    /// A field whose value is none of its channel's.
    OutsideChannel,
    /// A value of another kind than is needed.
    Kind,
    /// A choice of one of no values.
    EmptyChoice,
    /// A set of more than 16,384 elements, or more than 1,048,576 bindings.
    SetLimit,
}
