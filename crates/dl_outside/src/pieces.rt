//! Pieces of bytes, as the sinks in memory take them.

ghost use Rattle.std.specs.Prelude.{◌≡◌, ◌++◌, length, take, min, IfOk, OnErr};

use csp_base::{Bytes, Made};

/// Appends the first bytes of a piece, at most so many, and answers how many they are.
pub(crate) fn take_piece(sent: &mut Bytes, piece: &[u8], most: u32) -> Made<usize>
    ensures count { IfOk result (λ n. n ≡ min (length piece.now) most) }
    ensures appended { IfOk result (λ n. sent.new ≡ sent.old ++ take n piece.now) }
    ensures err { OnErr result (sent.new ≡ sent.old) }
{
    let count = piece.len().min(most as usize);
    sent.extend_from_slice(&piece[..count])?;
    Ok(count)
}
