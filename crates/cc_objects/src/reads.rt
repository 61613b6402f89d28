//! What a reading command finds in a view: one slot over all its rows (CCC, max register, abort flag and set).
ghost use Rattle.std.specs.Prelude.{◌≡◌, ◌*◌, ◌≤◌, map, max, length, IfOk};
ghost use Rattle.std.specs.List.{flat_map, list_any, reduce};
ghost use Rattle.cc_views.specs.AscendingLists.{IsAscending};
ghost use Rattle.cc_views.specs.NatSets.{items};
ghost use Rattle.cc_objects.specs.Objects as objects;

use cc_views::{NoMemory, Row, View};
use std::alloc::Global;

/// The greatest maximum of the rows, 0 where there is none.
pub fn max_of(view: &View) -> u64
    ensures { result ≡ objects.max_of view.now }
{
    greatest_max(view.rows()).unwrap_or(0)
}

fn greatest_max(rows: &[Row]) -> Option<u64>
    ensures { result ≡ reduce max (map (λ row. row.value.max) rows.now) }
{
    rows.iter().map(|row| row.value.max).max()
}

/// Whether a row's flag is set.
pub fn flag_of(view: &View) -> bool
    ensures { result ≡ objects.flag_of view.now }
{
    any_flag(view.rows())
}

fn any_flag(rows: &[Row]) -> bool
    ensures { result ≡ list_any (λ row. row.value.flag) rows.now }
{
    rows.iter().any(|row| row.value.flag)
}

/// All members of the rows' sets, in ascending order.
pub fn set_of(alloc: Global, view: &View) -> Result<Vec<u32>, NoMemory>
    ensures numbers { IfOk result (λ v. v.items ≡ items (objects.set_of view.now)) }
    ensures ascending { IfOk result (λ v. IsAscending v.items) }
    ensures fits { IfOk result (λ v. length v.items ≤ 8192) }
{
    let mut numbers = each_member(alloc, view.rows())?;
    numbers.sort_unstable();
    numbers.dedup();
    Ok(numbers)
}

// The members of each row's set, row by row.
fn each_member(alloc: Global, rows: &[Row]) -> Result<Vec<u32>, NoMemory>
    ensures numbers { IfOk result (λ v. v.items ≡ flat_map (λ row. items row.value.set) rows.now) }
    ensures fits { IfOk result (λ v. length v.items ≤ 32 * length rows.now) }
{
    let mut numbers = Vec::new(alloc);
    for row in rows {
        numbers.extend_from_slice(row.value.set.as_slice())?;
    }
    Ok(numbers)
}
