//! Counts of faults and of bytes.

ghost use Rattle.std.specs.Prelude.{◌≡◌};
ghost use Rattle.dl_outside.specs.Count.{one_more};

/// What a shelf counts.
#[derive(Clone, Copy)]
pub struct Counts {
    /// Its faults, up to the last value.
    pub faults: u64,
    /// The bytes that its loads have taken.
    pub taken: u64,
}

/// One fault more, where the count isn't at its last value.
pub(crate) fn raise(count: u64) -> u64
    ensures { result ≡ one_more count }
{
    count.saturating_add(1)
}
