//! In which row and column each vertex is, as a table.

ghost use Rattle.std.specs.Prelude.{◌≡◌, ℕ, ◌<◌, ◌+◌, ◌*◌, length, slice_index, slice_set, true};
ghost use Rattle.std.specs.Prelude.{IfOk};
ghost use Rattle.bars.specs.inner.Crossings.{AreCrossings};

use crate::lines::Lines;
use compact_types::NoMemory;
use std::alloc::Global;

/// The row-major table of all rows and columns, with a mark if a row and a column have a vertex
/// in common.
pub(crate) fn crossings_of(
    alloc: Global,
    rows: &Lines,
    columns: &Lines,
) -> Result<Vec<bool>, NoMemory>
    requires fit { length rows.now.of.items ≡ length columns.now.of.items }
    requires rows { (v : ℕ) → v < length rows.now.of.items →
        slice_index rows.now.of.items v < rows.now.count }
    requires columns { (v : ℕ) → v < length columns.now.of.items →
        slice_index columns.now.of.items v < columns.now.count }
    ensures { IfOk result (λ table.
        AreCrossings rows.now columns.now (length rows.now.of.items) table.items) }
{
    let across = columns.count as usize;
    let mut table = vec![in alloc; false; rows.count as usize * across]?;
    let marks = table.as_mut_slice();
    let row_of = rows.of.as_slice();
    let column_of = columns.of.as_slice();
    for v in 0..row_of.len() {
        mark(marks, across, row_of[v], column_of[v]);
    }
    Ok(table)
}

/// Marks the row and the column in a table of `across` columns.
fn mark(marks: &mut [bool], across: usize, row: u32, column: u32)
    requires { row * across + column < length marks.old }
    ensures { marks.new ≡ slice_set marks.old (row * across + column) true }
{
    marks[row as usize * across + column as usize] = true;
}
