//! A state is read off a side through one buffer, which is filled again before each element: so an element is whole in it,
//! or the state ends.

ghost use Rattle.std.specs.Prelude.{◌≡◌, ◌⊎◌, ◌≤◌, length, IfOk, OnOk, IfErr};
ghost use Rattle.cc_node_state.specs.Parts.{piece_limit};
ghost use Rattle.cc_checkpoint.specs.Windows.{AreBytes, IsOfDevice, LiesOn, ReadsOff, Runs, ahead, at, seen_by};

use crate::elements::Element;
use crate::piece::Piece;
use crate::read_fault::ReadFault;
use crate::unread::Unread;
use cc_site::Site;
use std::alloc::Global;

// Reads on where fewer than `size` bytes are held and the state goes on: as much as there is room for. What is ahead
// stays the same.
fn refill<S: Site>(
    site: &mut S,
    piece: &mut Piece,
    unread: &mut Unread,
    size: usize,
) -> Result<(), ReadFault>
    requires size { size ≤ piece_limit }
    requires lies { LiesOn S.Site site.old unread.old }
    ensures same { S.honest site.old → OnOk result (ahead S.Site (at site.new piece.new unread.new) ≡ ahead S.Site (at site.old piece.old unread.old)) }
    ensures bytes { S.honest site.old → OnOk result (AreBytes (ahead S.Site (at site.new piece.new unread.new))) }
    ensures reaches { OnOk result ((size ≤ length piece.new) ⊎ (unread.new.place ≡ unread.new.end)) }
    ensures device { IfErr result IsOfDevice }
    ensures run { Runs S.Site (at site.old piece.old unread.old) (at site.new piece.new unread.new) result }
{
    let held = piece.len();
    let left = unread.end - unread.place;
    if held >= size || left == 0 {
        return Ok(());
    }
    let count = left.min((Piece::MAX_LEN - held) as u64);
    piece.read_on(site, unread.side, unread.place, count as usize)?;
    unread.place += count;
    Ok(())
}

/// Reads an element off the front of what is ahead.
pub(crate) fn read_element<S: Site, E: Element>(
    alloc: Global,
    site: &mut S,
    piece: &mut Piece,
    unread: &mut Unread,
    element: &E,
) -> Result<E::Of, ReadFault>
    requires { LiesOn S.Site site.old unread.old }
    ensures exact { ReadsOff S.Site (E.format element.now).read (at site.old piece.old unread.old) (at site.new piece.new unread.new)
        (seen_by (E.format element.now).see result) }
    ensures holds { IfOk result (E.has element.now) }
{
    refill(site, piece, unread, element.most())?;
    let mut reader = piece.reader();
    let found = element.decode(alloc, &mut reader)?;
    piece.advance(element.len(&found));
    Ok(found)
}
