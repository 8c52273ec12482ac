//! The order of event sets as lists, over their blocks.

ghost use Rattle.std.specs.Prelude.{◌≡◌, ◌≢◌, ◌+◌, ◌<◌, ◌≤◌, length, take, slice_index_or, bit_xor};
ghost use Rattle.csp_base.specs.Standard.{OnTrue, OnFalse, slice_cmp, trailing_zeros, w64, nat_cmp};
ghost use Rattle.csp_base.specs.Prelude.{AreBlocks, events_of, word_order_at};

use std::cmp::Ordering;

/// Whether both lists have the same block at a place.
fn agree_at(left: &[(u32, u64)], right: &[(u32, u64)], place: usize) -> bool
    ensures in_left { OnTrue result (place < length left.now) }
    ensures in_right { OnTrue result (place < length right.now) }
    ensures agree { OnTrue result (slice_index_or left.now place (0, 0) ≡ slice_index_or right.now place (0, 0)) }
    ensures differ { OnFalse result (place < length left.now → place < length right.now
        → slice_index_or left.now place (0, 0) ≢ slice_index_or right.now place (0, 0)) }
{
    if place >= left.len() || place >= right.len() {
        return false;
    }
    left[place].0 == right[place].0 && left[place].1 == right[place].1
}

/// How many blocks both lists begin with alike.
fn common_front(left: &[(u32, u64)], right: &[(u32, u64)]) -> usize
    ensures in_left { result ≤ length left.now }
    ensures in_right { result ≤ length right.now }
    ensures same { take result left.now ≡ take result right.now }
    ensures differ { result < length left.now → result < length right.now
        → slice_index_or left.now result (0, 0) ≢ slice_index_or right.now result (0, 0) }
{
    let mut place = 0;
    while agree_at(left, right, place) {
        place += 1;
    }
    place
}

/// How two sets compare that differ first in the words of one block. The flags say whether more blocks follow.
fn word_order(left: u64, left_more: bool, right: u64, right_more: bool) -> Ordering
    requires { left ≢ right }
    ensures { result ≡ word_order_at (trailing_zeros w64 (bit_xor left right)) left left_more right right_more }
{
    let place = (left ^ right).trailing_zeros();
    let (has, other_goes_on) = if (left >> place) & 1 == 1 {
        (Ordering::Less, right_more || right >> place != 0)
    } else {
        (Ordering::Greater, left_more || left >> place != 0)
    };
    if other_goes_on { has } else { has.reverse() }
}

/// How two sets compare as lists, where they begin with different blocks.
fn order_at(left: &[(u32, u64)], right: &[(u32, u64)]) -> Ordering
    requires left_blocks { AreBlocks left.now }
    requires right_blocks { AreBlocks right.now }
    requires differ { 0 < length left.now → 0 < length right.now
        → slice_index_or left.now 0 (0, 0) ≢ slice_index_or right.now 0 (0, 0) }
    ensures { result ≡ slice_cmp nat_cmp (events_of left.now) (events_of right.now) }
{
    if left.len().min(right.len()) == 0 {
        return left.len().cmp(&right.len());
    }
    if left[0].0 != right[0].0 {
        return left[0].0.cmp(&right[0].0);
    }
    word_order(left[0].1, left.len() > 1, right[0].1, right.len() > 1)
}

/// How two sets compare as lists of events.
pub(crate) fn order(left: &[(u32, u64)], right: &[(u32, u64)]) -> Ordering
    requires left_blocks { AreBlocks left.now }
    requires right_blocks { AreBlocks right.now }
    ensures { result ≡ slice_cmp nat_cmp (events_of left.now) (events_of right.now) }
{
    let front = common_front(left, right);
    order_at(&left[front..], &right[front..])
}
