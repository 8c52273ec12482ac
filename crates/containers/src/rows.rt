//! Rows of items that grow.

ghost use Rattle.std.specs.Prelude.{◌≡◌, ◌<◌, ◌++◌, ◌∷◌, [], length, replicate, slice_index_or, slice_set, IfOk, OnOk};

use crate::items::Items;
use std::alloc::{AllocError, Global};

/// As many empty rows as `count` says.
pub fn empty_rows<T: Drop>(alloc: Global, count: usize) -> Result<Vec<Items<T>>, AllocError>
    ensures { IfOk result (λ rows. rows.items ≡ replicate count []) }
{
    let mut rows = Vec::new(alloc);
    for _ in 0..count {
        rows.push(Items::new(alloc))?;
    }
    Ok(rows)
}

/// Puts `item` at the end of the row at `place`.
pub fn push_at<T: Drop>(rows: &mut Vec<Items<T>>, place: usize, item: T) -> Result<(), AllocError>
    requires { place < length rows.old.items }
    ensures { OnOk result (rows.new.items ≡ slice_set rows.old.items place (slice_index_or rows.old.items place []
        ++ item ∷ [])) }
{
    rows[place].push(item)?;
    Ok(())
}
