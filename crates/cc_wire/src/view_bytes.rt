//! Views.

ghost use Rattle.std.specs.Prelude.{◌≡◌, ◌≤◌, ◌+◌, ℕ, List, [], ◌++◌, length, IfOk, OnOk, OnErr, IsOk, Ok, vec_len};
ghost use Rattle.std.specs.Vec.{vec_capacity};
ghost use Rattle.std.specs.FinMap as map;
ghost use Rattle.cc_views.specs.Rows.{ViewMap, rows_of, entries_of};
ghost use Rattle.cc_views.specs.Limits.{known_limit};
ghost use Rattle.cc_wire.specs.Spellings.{SpellsView, view_spelling};
ghost use Rattle.cc_wire.specs.Readers.{Gives, row_at, rows_at, view_at, whole};

use crate::fault::WireFault;
use crate::reader::Reader;
use crate::writer::{put_view, settled};
use cc_views::{NoMemory, Row, View};
use std::alloc::Global;

impl<'a> Reader<'a> {
    #[tactic(auto, unfolding(crate::specs::Readers::row_at))]
    fn row(&mut self, least: u64) -> Result<Row, WireFault>
        requires { 1 ≤ least }
        ensures exact { Gives (λ x. (x, self.new)) result (row_at least self.old) }
        ensures least { IfOk result (λ row. least ≤ row.node) }
    {
        let node = self.id(least)?;
        let number = self.u64()?;
        let value = self.value()?;
        Ok(Row {
            node,
            number,
            value,
        })
    }

    fn rows(&mut self, count: u16, view: &mut View) -> Result<(), WireFault>
        requires count { count ≤ known_limit }
        requires empty { rows_of view.old ≡ [] }
        ensures { Gives (λ _. (rows_of view.new, self.new)) result (rows_at count 1 self.old) }
    {
        let mut least = 1;
        for _ in 0..count {
            let row = self.row(least)?;
            let node = row.node;
            view.push(row);
            least = u64::from(node.number()) + 1;
        }
        Ok(())
    }

    /// A view: a count, and so many rows. TooLarge above 256, NotAscending where the nodes don't rise, and the faults of a
    /// row's value.
    #[tactic(auto, unfolding(crate::specs::Readers::view_at, crate::specs::Readers::row_list_at))]
    pub fn view(&mut self, alloc: Global) -> Result<View, WireFault>
        ensures { Gives (λ x. (x, self.new)) result (view_at self.old) }
    {
        let count = self.u16()?;
        if usize::from(count) > View::MAX_ROWS {
            return Err(WireFault::TooLarge);
        }
        let mut view = View::new(alloc)?;
        self.rows(count, &mut view)?;
        Ok(view)
    }
}

/// The view that the bytes spell, all of the bytes.
/// The fault is that of the first field, from left to right, that can't be read.
pub fn decode_view(alloc: Global, bytes: &[u8]) -> Result<View, WireFault>
    // What is read is spelled so.
    ensures found { IfOk result (λ v. SpellsView bytes.now v) }
    // What is spelled so is read, unless memory runs out.
    ensures only { (v : ViewMap) → SpellsView bytes.now v → Gives (λ v. v) result (Ok v) }
    // Which fault it is.
    ensures exact { Gives (λ v. v) result (whole view_at bytes.now) }
{
    decode_all(alloc, bytes)
}

#[tactic(auto, unfolding(crate::specs::Readers::whole))]
fn decode_all(alloc: Global, bytes: &[u8]) -> Result<View, WireFault>
    ensures { Gives (λ v. v) result (whole view_at bytes.now) }
{
    let mut reader = Reader::new(bytes);
    let view = reader.view(alloc)?;
    if let Err(fault) = reader.end() {
        drop(view);
        return Err(fault);
    }
    Ok(view)
}

/// Appends the spelling of a view. On an `Err` nothing has changed.
pub fn encode_view(view: &View, out: &mut Vec<u8>) -> Result<(), NoMemory>
    ensures spelled { OnOk result (SpellsView (view_spelling view.now) view.now) }
    ensures ok { OnOk result (out.new.items ≡ out.old.items ++ view_spelling view.now) }
    ensures err { OnErr result (out.new.items ≡ out.old.items) }
    ensures room { vec_len out.old + length (view_spelling view.now) ≤ vec_capacity out.old → IsOk result }
{
    let start = out.len();
    let put = put_view(out, view);
    settled(out, start, put)
}

/// Each view has one spelling, and none begins another.
pub fn one_spelling_of_views()
    ensures one { (a b u w : List ℕ) (x y : ViewMap) → SpellsView a x → SpellsView b y → a ++ u ≡ b ++ w → (x ≡ y) × (a ≡ b) }
    ensures same { (a b : List ℕ) (x : ViewMap) → SpellsView a x → SpellsView b x → a ≡ b }
{}
