//! The order of rows.

ghost use Rattle.std.specs.Prelude.{IfOk, IsPermutation};
ghost use Rattle.std.specs.List.{IsDistinct};
ghost use Rattle.std.specs.List.Sorted.{IsStrictlySortedBy};
ghost use Rattle.std.specs.Map.{keys_of};

use crate::row_ref::RowRef;
use byte_text::OutOfMemory;

/// The rows by rising key.
pub fn sorted_by_key<K: Ord + Copy, A: Copy>(
    mut rows: Vec<RowRef<'_, K, A>>,
) -> Result<Vec<RowRef<'_, K, A>>, OutOfMemory>
    requires { IsDistinct K.eq (keys_of rows.items) }
    ensures rows { IfOk result (λ v. IsPermutation rows.entry.items v.items) }
    ensures rise { IfOk result (λ v. IsStrictlySortedBy K.cmp (keys_of v.items)) }
{
    rows.sort_by_key(|row| row.key())?;
    Ok(rows)
}
