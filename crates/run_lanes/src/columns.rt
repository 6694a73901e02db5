// Rows that become columns.
ghost use Rattle.std.specs.Prelude.{◌≡◌, ◌+◌, ◌-◌, ◌<◌, [], length, map, take, slice_set, slice_index_or, IfOk};
ghost use Rattle.run_lanes.specs.Rows.{AreColumns, AreRows, TakesColumn};

use no_memory::NoMemory;
use std::alloc::Global;

// The last of one row.
fn pop_at<X: Drop>(rows: &mut Vec<Vec<X>>, at: usize) -> X
    requires row { at < length rows.old.items }
    requires some { 0 < length (slice_index_or (map (λ r. r.items) rows.old.items) at []) }
    ensures rest { map (λ r. r.items) rows.new.items ≡ slice_set (map (λ r. r.items) rows.old.items) at (take (length (slice_index_or (map (λ r. r.items) rows.old.items) at []) - 1) (slice_index_or (map (λ r. r.items) rows.old.items) at [])) }
    ensures last { (x : X) → result ≡ slice_index_or (slice_index_or (map (λ r. r.items) rows.old.items) at []) (length (slice_index_or (map (λ r. r.items) rows.old.items) at []) - 1) x }
{
    let Some(item) = rows[at].pop() else {
        unreachable!();
    };
    item
}

// The last of each row, in the order of the rows.
fn pop_column<X: Drop>(
    alloc: Global,
    rows: &mut Vec<Vec<X>>,
    last: usize,
) -> Result<Vec<X>, NoMemory>
    requires { AreRows (last + 1) (map (λ r. r.items) rows.old.items) }
    ensures { IfOk result (λ column. TakesColumn last (map (λ r. r.items) rows.old.items) (map (λ r. r.items) rows.new.items) column.items) }
{
    let mut column = Vec::new(alloc);
    'rows: for at in 0..rows.len() {
        column.push(pop_at(rows, at))?;
    }
    Ok(column)
}

/// The columns of these rows, each of which has so many places. Where no memory is found, all is dropped.
pub fn transposed<X: Drop>(
    alloc: Global,
    mut rows: Vec<Vec<X>>,
    width: usize,
) -> Result<Vec<Vec<X>>, NoMemory>
    requires { AreRows width (map (λ r. r.items) rows.items) }
    ensures { IfOk result (λ columns. AreColumns width (map (λ r. r.items) rows.items) (map (λ c. c.items) columns.items)) }
{
    let mut columns = Vec::new(alloc);
    'columns: for done in 0..width {
        columns.push(pop_column(alloc, &mut rows, width - 1 - done)?)?;
    }
    columns.reverse();
    Ok(columns)
}
