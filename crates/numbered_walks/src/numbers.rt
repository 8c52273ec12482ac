//! The numbers that choose.

ghost use Rattle.std.specs.Prelude.{◌≡◌, ◌<◌};
ghost use Rattle.numbered_walks.specs.Numbers.{first_draw, next_number, place_among};

/// The number after a number.
pub(crate) fn next_number(number: u32) -> u32
    ensures { result ≡ next_number number }
{
    ((1_103_515_245 * u64::from(number) + 12_345) % 2_147_483_648) as u32
}

/// The number after which those come that choose among targets.
pub(crate) fn first_draw(seed: u32) -> u32
    ensures { result ≡ first_draw seed }
{
    999_999_999_u32.saturating_sub(seed)
}

/// The place that a number chooses among so many.
pub(crate) fn place_among(number: u32, count: usize) -> usize
    requires { 0 < count }
    ensures place { result ≡ place_among number count }
    ensures within { result < count }
{
    (number as usize / 65_536) % count
}
