//! Who is there, by number.

ghost use Rattle.std.specs.Prelude.{◌≡◌, ◌++◌, not, OnOk, map};
ghost use Rattle.std.specs.List.{filter};
ghost use Rattle.cc_views.specs.NatSets as set;
ghost use Rattle.cc_sessions.specs.Rows as sessions;
ghost use Rattle.cc_status.specs.ShownNodes.{told_session, session_told};

use crate::status::SessionStatus;
use crate::wide::Wide;
use cc_changes::Changes;
use cc_sessions::SessionRow;
use cc_views::{NoMemory, NodeId};

/// Adds those that haven't left.
pub(crate) fn push_live(
    ids: &[NodeId],
    changes: &Changes,
    numbers: &mut Vec<u32>,
) -> Result<(), NoMemory>
    ensures { OnOk result (numbers.new.items ≡ numbers.old.items ++ filter (λ q. not (set.contains changes.now.left q)) ids.now) }
{
    for id in ids {
        if !changes.has_left(*id) {
            numbers.push(id.number())?;
        }
    }
    Ok(())
}

/// Adds all of them.
pub(crate) fn push_all(ids: &[NodeId], numbers: &mut Vec<u32>) -> Result<(), NoMemory>
    ensures { OnOk result (numbers.new.items ≡ numbers.old.items ++ ids.now) }
{
    for id in ids {
        numbers.push(id.number())?;
    }
    Ok(())
}

/// Adds sessions with their last requests.
pub(crate) fn push_sessions(
    rows: &[SessionRow],
    sessions: &mut Vec<SessionStatus>,
) -> Result<(), NoMemory>
    ensures { OnOk result (map told_session sessions.new.items ≡ map told_session sessions.old.items ++ map session_told rows.now) }
{
    for row in rows {
        sessions.push(SessionStatus {
            session: Wide(row.session),
            request: Wide(row.last),
        })?;
    }
    Ok(())
}
