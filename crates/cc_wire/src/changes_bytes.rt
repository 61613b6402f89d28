//! Sets of ids, and changes.

ghost use Rattle.std.specs.Prelude.{◌≡◌, ◌≤◌, [], ◌++◌, length, OnOk};
ghost use Rattle.std.specs.List.{flat_map, AllByRecursion};
ghost use Rattle.cc_views.specs.NatSets.{items};
ghost use Rattle.cc_views.specs.Limits.{known_limit};
ghost use Rattle.cc_wire.specs.Writers.{Writes};
ghost use Rattle.cc_wire.specs.Spellings.{number_spelling, listed_spelling, IsId, changes_spelling, IsChanges};
ghost use Rattle.cc_wire.specs.Readers.{Gives, numbers_at, id_set_at, changes_at};

use crate::fault::WireFault;
use crate::reader::Reader;
use crate::writer::{put_u16, put_u32};
use cc_changes::{Changes, IdSet};
use cc_views::NodeId;
use std::alloc::{AllocError, Global};

impl<'a> Reader<'a> {
    #[tactic(auto, unfolding(crate::specs::Readers::id_set_at, crate::specs::Readers::listed_at))]
    fn id_set(&mut self, alloc: Global) -> Result<IdSet, WireFault>
        ensures { Gives (λ x. (x, self.new)) result (id_set_at self.old) }
    {
        let count = self.u16()?;
        if usize::from(count) > IdSet::MAX_LEN {
            return Err(WireFault::TooLarge);
        }
        let mut set = IdSet::new(alloc)?;
        self.numbers(count, &mut set)?;
        Ok(set)
    }

    /// Who entered, joined and left: three lists of ids. TooLarge above 256, NotAscending where ids don't rise from 1 on.
    #[tactic(auto, unfolding(crate::specs::Readers::changes_at))]
    pub fn changes(&mut self, alloc: Global) -> Result<Changes, WireFault>
        ensures { Gives (λ x. (x, self.new)) result (changes_at self.old) }
    {
        let entered = self.id_set(alloc)?;
        let joined = self.id_set(alloc)?;
        let left = self.id_set(alloc)?;
        Ok(Changes::from_sets(entered, joined, left))
    }
}

fn put_each_id(out: &mut Vec<u8>, ids: &[NodeId]) -> Result<(), AllocError>
    ensures writes { Writes out.old out.new (flat_map number_spelling ids.now) result }
    ensures fits { OnOk result (AllByRecursion IsId ids.now) }
{
    for id in ids {
        put_id(out, *id)?;
    }
    Ok(())
}

/// Appends a node's id, in four bytes. On an `Err` a part of them may stand at the end.
pub fn put_id(out: &mut Vec<u8>, id: NodeId) -> Result<(), AllocError>
    ensures writes { Writes out.old out.new (number_spelling id) result }
    ensures fits { OnOk result (IsId id) }
{
    put_u32(out, id.number())
}

fn put_ids(out: &mut Vec<u8>, ids: &[NodeId]) -> Result<(), AllocError>
    requires { length ids.now ≤ known_limit }
    ensures writes { Writes out.old out.new (listed_spelling ids.now) result }
    ensures fits { OnOk result (AllByRecursion IsId ids.now) }
{
    put_u16(out, ids.len() as u16)?;
    put_each_id(out, ids)
}

/// Appends who entered, joined and left, as `Reader::changes` reads it. On an `Err` a part may stand at the end.
pub fn put_changes(out: &mut Vec<u8>, changes: &Changes) -> Result<(), AllocError>
    ensures writes { Writes out.old out.new (changes_spelling changes.now) result }
    ensures fits { OnOk result (IsChanges changes.now) }
{
    put_ids(out, changes.entered())?;
    put_ids(out, changes.joined())?;
    put_ids(out, changes.left())
}
