//! The rows of a view, as they are shown.

ghost use Rattle.std.specs.Prelude.{◌≡◌, ◌++◌, ◌∷◌, [], map, IfOk, OnOk};
ghost use Rattle.cc_views.specs.Rows.{rows_of};
ghost use Rattle.cc_status.specs.ShownNodes.{told_row, row_told};

use crate::status::RowStatus;
use crate::texts::{ShownText, shown_text};
use crate::wide::Wide;
use cc_views::{NoMemory, Row, View};
use std::alloc::Global;

/// The rows of a view, by ascending node. The only error is a refused growth.
pub fn rows_of(alloc: Global, view: &View) -> Result<Vec<RowStatus>, NoMemory>
    ensures { IfOk result (λ v. map told_row v.items ≡ map row_told (rows_of view.now)) }
{
    let mut rows = Vec::new(alloc);
    match push_rows(alloc, view.rows(), &mut rows) {
        Ok(()) => Ok(rows),
        Err(NoMemory) => {
            drop(rows);
            Err(NoMemory)
        }
    }
}

pub(crate) fn push_rows(
    alloc: Global,
    rows: &[Row],
    shown: &mut Vec<RowStatus>,
) -> Result<(), NoMemory>
    ensures { OnOk result (map told_row shown.new.items ≡ map told_row shown.old.items ++ map row_told rows.now) }
{
    for row in rows {
        shown.push(shown_row(alloc, row)?)?;
    }
    Ok(())
}

fn shown_row(alloc: Global, row: &Row) -> Result<RowStatus, NoMemory>
    ensures { IfOk result (λ r. told_row r ≡ row_told row.now) }
{
    let mut set = Vec::new(alloc);
    set.extend_from_slice(row.value.set.as_slice())?;
    let Ok(ShownText { plain, base64 }) = shown_text(alloc, &row.value.text) else {
        drop(set);
        return Err(NoMemory);
    };
    Ok(RowStatus {
        node: row.node.number(),
        number: Wide(row.number),
        text: plain,
        text_base64: base64,
        max: Wide(row.value.max),
        flag: row.value.flag,
        set,
    })
}
