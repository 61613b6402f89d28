//! A source of bytes, off which a state is read element by element.

ghost use Rattle.std.specs.Prelude.{◌≡◌, ◌≤◌, ℕ, List, Option, None, ◌==◌, length, IfOk};
ghost use Rattle.std.specs.Int.{w16, w64};
ghost use Rattle.cc_views.specs.Limits.{session_limit};
ghost use Rattle.cc_views.specs.Tables.{IsRising, table_of};
ghost use Rattle.cc_wire.specs.Messages.{message_at};
ghost use Rattle.cc_wire.specs.Readers.{number_at, view_at};
ghost use Rattle.cc_links.specs.Rows as links;
ghost use Rattle.cc_sessions.specs.Rows as sessions;
ghost use Rattle.cc_outbox.specs.Rows as answers;
ghost use Rattle.cc_node_state.specs.States.{membership_at, entering_at, round_at, table_at, link_at, session_at, kept_answer_at};
ghost use Rattle.cc_node_state.specs.Fields.{membership_in, own_at, own_in, entering_in, round_in};
ghost use Rattle.cc_node_state.specs.Sources.{Finds, failure_of};

use crate::fields::{Entering, Membership, Own, Round};
use crate::layout::Layout;
use crate::source_fault::SourceFault;
use crate::state_reader::{
    read_entering, read_kept_answer, read_link, read_membership, read_own, read_round,
    read_session_table,
};
use cc_links::LinkRow;
use cc_messages::Message;
use cc_outbox::KeptAnswer;
use cc_sessions::SessionRow;
use cc_views::View;
use cc_wire::Reader;
use std::alloc::Global;

/// A source of bytes on a device, of which a piece is held.
pub trait Source<D, P> {
    /// Why it fails.
    type Failure: Drop;

    // The bytes that lie ahead.
    ghost ahead: { D → P → Self → List ℕ };

    // The device gives what it has.
    ghost honest: { D → Type 0 };

    // Which fault of the wire it is is told.
    ghost told: { Type 0 };

    // The device has the bytes.
    ghost lies: { D → Self → Type 0 };

    // What a call leaves, and its failure, where there is one.
    ghost runs: { D → Self → D → Self → Option Self.Failure → Type 0 };

    /// A number.
    fn number(
        &mut self,
        alloc: Global,
        device: &mut D,
        piece: &mut P,
    ) -> Result<u64, SourceFault<Self::Failure>>
        requires lies { lies device.old self.old }
        ensures exact { honest device.old → Finds told (λ x. (x, ahead device.new piece.new self.new)) result
            ((number_at w64) (ahead device.old piece.old self.old)) }
        ensures run { runs device.old self.old device.new self.new (failure_of result) };

    /// A count.
    fn count(
        &mut self,
        alloc: Global,
        device: &mut D,
        piece: &mut P,
    ) -> Result<u16, SourceFault<Self::Failure>>
        requires lies { lies device.old self.old }
        ensures exact { honest device.old → Finds told (λ x. (x, ahead device.new piece.new self.new)) result
            ((number_at w16) (ahead device.old piece.old self.old)) }
        ensures run { runs device.old self.old device.new self.new (failure_of result) };

    /// The first fields.
    fn membership(
        &mut self,
        alloc: Global,
        device: &mut D,
        piece: &mut P,
    ) -> Result<Membership, SourceFault<Self::Failure>>
        requires lies { lies device.old self.old }
        ensures exact { honest device.old → Finds told (λ x. (membership_in x, ahead device.new piece.new self.new)) result
            ((membership_at) (ahead device.old piece.old self.old)) }
        ensures run { runs device.old self.old device.new self.new (failure_of result) };

    /// A view.
    fn view(
        &mut self,
        alloc: Global,
        device: &mut D,
        piece: &mut P,
    ) -> Result<View, SourceFault<Self::Failure>>
        requires lies { lies device.old self.old }
        ensures exact { honest device.old → Finds told (λ x. (x, ahead device.new piece.new self.new)) result
            ((view_at) (ahead device.old piece.old self.old)) }
        ensures run { runs device.old self.old device.new self.new (failure_of result) };

    /// The own value under its number, and the tag.
    fn own(
        &mut self,
        alloc: Global,
        device: &mut D,
        piece: &mut P,
    ) -> Result<Own, SourceFault<Self::Failure>>
        requires lies { lies device.old self.old }
        ensures exact { honest device.old → Finds told (λ x. (own_in x, ahead device.new piece.new self.new)) result
            ((own_at) (ahead device.old piece.old self.old)) }
        ensures run { runs device.old self.old device.new self.new (failure_of result) };

    /// How far the own entering has come.
    fn entering(
        &mut self,
        alloc: Global,
        device: &mut D,
        piece: &mut P,
    ) -> Result<Entering, SourceFault<Self::Failure>>
        requires lies { lies device.old self.old }
        ensures exact { honest device.old → Finds told (λ x. (entering_in x, ahead device.new piece.new self.new)) result
            ((entering_at) (ahead device.old piece.old self.old)) }
        ensures run { runs device.old self.old device.new self.new (failure_of result) };

    /// The pending round, and the asks behind it.
    fn round(
        &mut self,
        alloc: Global,
        device: &mut D,
        piece: &mut P,
        layout: Layout,
    ) -> Result<Round, SourceFault<Self::Failure>>
        requires lies { lies device.old self.old }
        ensures exact { honest device.old → Finds told (λ x. (round_in x, ahead device.new piece.new self.new)) result
            ((round_at layout) (ahead device.old piece.old self.old)) }
        ensures run { runs device.old self.old device.new self.new (failure_of result) };

    /// A link to a peer from this one on.
    fn link(
        &mut self,
        alloc: Global,
        device: &mut D,
        piece: &mut P,
        least: u64,
    ) -> Result<LinkRow, SourceFault<Self::Failure>>
        requires lies { lies device.old self.old }
        requires from { 1 ≤ least }
        ensures exact { honest device.old → Finds told (λ x. (links.entry_of x, ahead device.new piece.new self.new)) result
            ((link_at least) (ahead device.old piece.old self.old)) }
        ensures least { IfOk result (λ row. least ≤ row.peer) }
        ensures run { runs device.old self.old device.new self.new (failure_of result) };

    /// The sessions, each with its last request.
    fn sessions(
        &mut self,
        alloc: Global,
        device: &mut D,
        piece: &mut P,
    ) -> Result<Vec<SessionRow>, SourceFault<Self::Failure>>
        requires lies { lies device.old self.old }
        ensures exact { honest device.old → Finds told (λ x. (table_of sessions.entry_of x.items, ahead device.new piece.new self.new)) result
            ((table_at session_at session_limit 0) (ahead device.old piece.old self.old)) }
        ensures rows { IfOk result (λ rows. IsRising sessions.entry_of rows.items × (length rows.items ≤ session_limit)) }
        ensures run { runs device.old self.old device.new self.new (failure_of result) };

    /// A message.
    fn message(
        &mut self,
        alloc: Global,
        device: &mut D,
        piece: &mut P,
    ) -> Result<Message, SourceFault<Self::Failure>>
        requires lies { lies device.old self.old }
        ensures exact { honest device.old → Finds told (λ x. (x, ahead device.new piece.new self.new)) result
            ((message_at) (ahead device.old piece.old self.old)) }
        ensures run { runs device.old self.old device.new self.new (failure_of result) };

    /// An answer that is kept for a session from this one on.
    fn kept_answer(
        &mut self,
        alloc: Global,
        device: &mut D,
        piece: &mut P,
        least: u128,
    ) -> Result<KeptAnswer, SourceFault<Self::Failure>>
        requires lies { lies device.old self.old }
        ensures exact { honest device.old → Finds told (λ x. (answers.entry_of x, ahead device.new piece.new self.new)) result
            ((kept_answer_at least) (ahead device.old piece.old self.old)) }
        ensures least { IfOk result (λ kept. least ≤ kept.session) }
        ensures run { runs device.old self.old device.new self.new (failure_of result) };

    /// Whether nothing lies ahead.
    fn is_ended(&self, device: &D, piece: &P) -> bool
        requires { lies device.now self.now }
        ensures { honest device.now → result ≡ (length (ahead device.now piece.now self.now) == 0) };

    ghost starts: { (d : D) (s : Self) → lies d s → runs d s d s None };

    ghost lies_on: { (d e : D) (s t : Self) → runs d s e t None → lies e t };

    ghost honest_on: { (d e : D) (s t : Self) → runs d s e t None → honest d → honest e };

    ghost goes_on: { (d e f : D) (s t u : Self) (o : Option Self.Failure) → runs d s e t None → runs e t f u o → runs d s f u o };
}

/// All of the bytes of a reader, which is its own piece.
#[derive(Drop)]
pub(crate) struct InMemory;

impl<'a> Source<(), Reader<'a>> for InMemory {
    ghost use Rattle.std.specs.Prelude.{◌≡◌, ⊤, None, refl};

    type Failure = ();

    ghost ahead = { λ _ bytes _. bytes };

    ghost honest = { λ _. ⊤ };

    ghost told = { ⊤ };

    ghost lies = { λ _ _. ⊤ };

    ghost runs = { λ _ _ _ _ failure. failure ≡ None };

    #[tactic(auto, using(crate::proofs::SourceLaws::wire_misses))]
    fn number(
        &mut self,
        _alloc: Global,
        _device: &mut (),
        piece: &mut Reader<'a>,
    ) -> Result<u64, SourceFault<()>> {
        match piece.u64() {
            Ok(found) => Ok(found),
            Err(fault) => Err(SourceFault::Wire(fault)),
        }
    }

    #[tactic(auto, using(crate::proofs::SourceLaws::wire_misses))]
    fn count(
        &mut self,
        _alloc: Global,
        _device: &mut (),
        piece: &mut Reader<'a>,
    ) -> Result<u16, SourceFault<()>> {
        match piece.u16() {
            Ok(found) => Ok(found),
            Err(fault) => Err(SourceFault::Wire(fault)),
        }
    }

    #[tactic(auto, using(crate::proofs::SourceLaws::wire_misses))]
    fn membership(
        &mut self,
        alloc: Global,
        _device: &mut (),
        piece: &mut Reader<'a>,
    ) -> Result<Membership, SourceFault<()>> {
        match read_membership(alloc, piece) {
            Ok(found) => Ok(found),
            Err(fault) => Err(SourceFault::Wire(fault)),
        }
    }

    #[tactic(auto, using(crate::proofs::SourceLaws::wire_misses))]
    fn view(
        &mut self,
        alloc: Global,
        _device: &mut (),
        piece: &mut Reader<'a>,
    ) -> Result<View, SourceFault<()>> {
        match piece.view(alloc) {
            Ok(found) => Ok(found),
            Err(fault) => Err(SourceFault::Wire(fault)),
        }
    }

    #[tactic(auto, using(crate::proofs::SourceLaws::wire_misses))]
    fn own(
        &mut self,
        _alloc: Global,
        _device: &mut (),
        piece: &mut Reader<'a>,
    ) -> Result<Own, SourceFault<()>> {
        match read_own(piece) {
            Ok(found) => Ok(found),
            Err(fault) => Err(SourceFault::Wire(fault)),
        }
    }

    #[tactic(auto, using(crate::proofs::SourceLaws::wire_misses))]
    fn entering(
        &mut self,
        _alloc: Global,
        _device: &mut (),
        piece: &mut Reader<'a>,
    ) -> Result<Entering, SourceFault<()>> {
        match read_entering(piece) {
            Ok(found) => Ok(found),
            Err(fault) => Err(SourceFault::Wire(fault)),
        }
    }

    #[tactic(auto, using(crate::proofs::SourceLaws::wire_misses))]
    fn round(
        &mut self,
        alloc: Global,
        _device: &mut (),
        piece: &mut Reader<'a>,
        layout: Layout,
    ) -> Result<Round, SourceFault<()>> {
        match read_round(alloc, piece, layout) {
            Ok(found) => Ok(found),
            Err(fault) => Err(SourceFault::Wire(fault)),
        }
    }

    #[tactic(auto, using(crate::proofs::SourceLaws::wire_misses))]
    fn link(
        &mut self,
        _alloc: Global,
        _device: &mut (),
        piece: &mut Reader<'a>,
        least: u64,
    ) -> Result<LinkRow, SourceFault<()>> {
        match read_link(piece, least) {
            Ok(found) => Ok(found),
            Err(fault) => Err(SourceFault::Wire(fault)),
        }
    }

    #[tactic(auto, using(crate::proofs::SourceLaws::wire_misses))]
    fn sessions(
        &mut self,
        alloc: Global,
        _device: &mut (),
        piece: &mut Reader<'a>,
    ) -> Result<Vec<SessionRow>, SourceFault<()>> {
        match read_session_table(alloc, piece) {
            Ok(found) => Ok(found),
            Err(fault) => Err(SourceFault::Wire(fault)),
        }
    }

    #[tactic(auto, using(crate::proofs::SourceLaws::wire_misses))]
    fn message(
        &mut self,
        alloc: Global,
        _device: &mut (),
        piece: &mut Reader<'a>,
    ) -> Result<Message, SourceFault<()>> {
        match piece.message(alloc) {
            Ok(found) => Ok(found),
            Err(fault) => Err(SourceFault::Wire(fault)),
        }
    }

    #[tactic(auto, using(crate::proofs::SourceLaws::wire_misses))]
    fn kept_answer(
        &mut self,
        alloc: Global,
        _device: &mut (),
        piece: &mut Reader<'a>,
        least: u128,
    ) -> Result<KeptAnswer, SourceFault<()>> {
        match read_kept_answer(alloc, piece, least) {
            Ok(found) => Ok(found),
            Err(fault) => Err(SourceFault::Wire(fault)),
        }
    }

    #[tactic(auto, using(crate::proofs::SourceLaws::is_ended_at))]
    fn is_ended(&self, _device: &(), piece: &Reader<'a>) -> bool {
        piece.end().is_ok()
    }

    ghost starts = { λ _ _ _. refl };

    ghost lies_on = { λ _ _ _ _ _. tt };

    ghost honest_on = { λ _ _ _ _ _ _. tt };

    ghost goes_on = { λ _ _ _ _ _ _ _ _ second. second };
}
