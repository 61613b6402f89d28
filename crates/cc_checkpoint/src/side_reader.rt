//! What is still to be read of a side, as a source of bytes: a state is read off it through one buffer.

ghost use Rattle.std.specs.Prelude.{◌≡◌, IfOk};
ghost use Rattle.cc_wire.specs.Readers.{whole};
ghost use Rattle.cc_node_state.specs.States.{state_at};
ghost use Rattle.cc_node_state.specs.Fields.{state_in, AreRead};
ghost use Rattle.cc_node_state.specs.Sources.{failure_of};
ghost use Rattle.cc_node_state.specs.Sources as sources;
ghost use Rattle.cc_checkpoint.specs.Windows.{Finds, Goes, LiesOn, Runs, ahead, at, runs_start, runs_again};

use crate::elements::{
    CountAt, Element, EnteringAt, KeptAnswerAt, LinkAt, MembershipAt, MessageAt, NumberAt, OwnAt,
    RoundAt, SessionsAt, ViewAt,
};
use crate::piece::Piece;
use crate::read_fault::ReadFault;
use crate::unread::Unread;
use crate::window::read_element;
use cc_links::LinkRow;
use cc_messages::Message;
use cc_node_state::{
    Entering, Fields, Layout, Membership, Own, Round, Source, SourceFault, read_whole,
};
use cc_outbox::KeptAnswer;
use cc_sessions::SessionRow;
use cc_site::{DeviceFault, Site};
use cc_views::View;
use cc_wire::WireFault;
use std::alloc::Global;

// Reads an element. Which fault of the wire it is isn't told.
fn take<S: Site, E: Element>(
    alloc: Global,
    device: &mut S,
    piece: &mut Piece,
    unread: &mut Unread,
    element: &E,
) -> Result<E::Of, SourceFault<DeviceFault>>
    requires { LiesOn S.Site device.old unread.old }
    ensures exact { S.honest device.old → sources.Finds ⊥ (λ x. ((E.format element.now).see x, ahead S.Site (at device.new piece.new unread.new))) result
        ((E.format element.now).read (ahead S.Site (at device.old piece.old unread.old))) }
    ensures holds { IfOk result (E.has element.now) }
    ensures run { Goes S.Site device.old unread.old device.new unread.new (failure_of result) }
{
    match read_element(alloc, device, piece, unread, element) {
        Ok(found) => Ok(found),
        Err(ReadFault::Device(fault)) => Err(SourceFault::Failed(fault)),
        Err(ReadFault::NoMemory) => Err(SourceFault::Wire(WireFault::NoMemory)),
        Err(ReadFault::NoState) => Err(SourceFault::Wire(WireFault::Broken)),
    }
}

impl<S: Site> Source<S, Piece> for Unread {
    type Failure = DeviceFault;

    ghost ahead = { λ device piece unread. ahead S.Site (at device piece unread) };

    ghost honest = { S.honest };

    ghost told = { ⊥ };

    ghost lies = { LiesOn S.Site };

    ghost runs = { Goes S.Site };

    fn number(
        &mut self,
        alloc: Global,
        device: &mut S,
        piece: &mut Piece,
    ) -> Result<u64, SourceFault<DeviceFault>> {
        take(alloc, device, piece, self, &NumberAt)
    }

    fn count(
        &mut self,
        alloc: Global,
        device: &mut S,
        piece: &mut Piece,
    ) -> Result<u16, SourceFault<DeviceFault>> {
        take(alloc, device, piece, self, &CountAt)
    }

    fn membership(
        &mut self,
        alloc: Global,
        device: &mut S,
        piece: &mut Piece,
    ) -> Result<Membership, SourceFault<DeviceFault>> {
        take(alloc, device, piece, self, &MembershipAt)
    }

    fn view(
        &mut self,
        alloc: Global,
        device: &mut S,
        piece: &mut Piece,
    ) -> Result<View, SourceFault<DeviceFault>> {
        take(alloc, device, piece, self, &ViewAt)
    }

    fn own(
        &mut self,
        alloc: Global,
        device: &mut S,
        piece: &mut Piece,
    ) -> Result<Own, SourceFault<DeviceFault>> {
        take(alloc, device, piece, self, &OwnAt)
    }

    fn entering(
        &mut self,
        alloc: Global,
        device: &mut S,
        piece: &mut Piece,
    ) -> Result<Entering, SourceFault<DeviceFault>> {
        take(alloc, device, piece, self, &EnteringAt)
    }

    fn round(
        &mut self,
        alloc: Global,
        device: &mut S,
        piece: &mut Piece,
        layout: Layout,
    ) -> Result<Round, SourceFault<DeviceFault>> {
        take(alloc, device, piece, self, &RoundAt { layout })
    }

    fn link(
        &mut self,
        alloc: Global,
        device: &mut S,
        piece: &mut Piece,
        least: u64,
    ) -> Result<LinkRow, SourceFault<DeviceFault>> {
        take(alloc, device, piece, self, &LinkAt { least })
    }

    fn sessions(
        &mut self,
        alloc: Global,
        device: &mut S,
        piece: &mut Piece,
    ) -> Result<Vec<SessionRow>, SourceFault<DeviceFault>> {
        take(alloc, device, piece, self, &SessionsAt)
    }

    fn message(
        &mut self,
        alloc: Global,
        device: &mut S,
        piece: &mut Piece,
    ) -> Result<Message, SourceFault<DeviceFault>> {
        take(alloc, device, piece, self, &MessageAt)
    }

    fn kept_answer(
        &mut self,
        alloc: Global,
        device: &mut S,
        piece: &mut Piece,
        least: u128,
    ) -> Result<KeptAnswer, SourceFault<DeviceFault>> {
        take(alloc, device, piece, self, &KeptAnswerAt { least })
    }

    fn is_ended(&self, _device: &S, piece: &Piece) -> bool {
        piece.len() == 0 && self.place == self.end
    }

    ghost starts = { λ d u lies. runs_start _ d u lies };

    ghost lies_on = { λ _ _ _ _ run. run.lies };

    ghost honest_on = { λ _ _ _ _ run honest. run.reads.keeps_honesty.0 honest };

    ghost goes_on = { λ d e f u v w failure first second. runs_again _ d e f u v w failure first second };
}

/// The fields of the state that lies ahead, all of it.
pub(crate) fn read_off<S: Site>(
    alloc: Global,
    site: &mut S,
    piece: &mut Piece,
    unread: &mut Unread,
    layout: Layout,
) -> Result<Fields, ReadFault>
    requires { LiesOn S.Site site.old unread.old }
    ensures exact { S.honest site.old → Finds state_in result (whole (state_at layout) (ahead S.Site (at site.old piece.old unread.old))) }
    ensures read { IfOk result (λ x. AreRead x.tables) }
    ensures run { Runs S.Site (at site.old piece.old unread.old) (at site.new piece.new unread.new) result }
{
    match read_whole(alloc, site, piece, unread, layout) {
        Ok(fields) => Ok(fields),
        Err(SourceFault::Failed(fault)) => Err(ReadFault::Device(fault)),
        Err(SourceFault::Wire(fault)) => Err(ReadFault::from(fault)),
    }
}
