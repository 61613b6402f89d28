//! The elements of a state, each of which is read whole from the front of a piece.

ghost use Rattle.std.specs.Prelude.{◌≡◌, ◌≤◌, ⊤, length, IfOk};
ghost use Rattle.cc_views.specs.Limits.{session_limit};
ghost use Rattle.cc_views.specs.Tables.{IsRising, table_of};
ghost use Rattle.cc_wire.specs.Readers.{Gives};
ghost use Rattle.cc_wire.proofs.Formats.{u16_spelled, u64_spelled, view_spelled};
ghost use Rattle.cc_wire.proofs.Lengths.{length-view, length-message};
ghost use Rattle.cc_wire.proofs.MessageFormat.{message_spelled};
ghost use Rattle.cc_links.specs.Rows as links;
ghost use Rattle.cc_sessions.specs.Rows as sessions;
ghost use Rattle.cc_outbox.specs.Rows as answers;
ghost use Rattle.cc_node_state.specs.States.{phase_spelling, round_spelling};
ghost use Rattle.cc_node_state.specs.Fields.{membership_in, own_in, entering_in, round_in};
ghost use Rattle.cc_node_state.specs.Parts.{piece_limit};
ghost use Rattle.cc_node_state.proofs.StateFormat.{membership_spelled, own_spelled, entering_spelled, round_spelled, link_spelled, sessions_spelled};
ghost use Rattle.cc_node_state.proofs.StateFormat.{kept_answer_spelled};
ghost use Rattle.cc_node_state.proofs.StateLengths.{length-membership, length-own, length-round, length-sessions, length-kept_answer};
ghost use Rattle.cc_checkpoint.specs.Formats.{Format, spelled_as, entering_small, number_small, count_small, link_small};

use cc_links::LinkRow;
use cc_messages::Message;
use cc_node_state::{
    COUNT_LEN, Entering, FRACTION_LEN, ID_LEN, LINK_LEN, Layout, Membership, NUMBER_LEN, Own,
    Round, SESSION_LEN, line_len, others_len, pending_len, read_entering, read_kept_answer,
    read_link, read_membership, read_own, read_round, read_session_table,
};
use cc_ops::Stage;
use cc_outbox::KeptAnswer;
use cc_sessions::SessionRow;
use cc_views::View;
use cc_wire::{Reader, WireFault, answer_len, changes_len, message_len, value_len, view_len};
use std::alloc::Global;

/// What is read off the front of a state as one.
pub(crate) trait Element {
    /// The value that is read.
    type Of;

    // How it is spelled.
    ghost format: { Self → Format Self.Of };

    // What holds of each that is read.
    ghost has: { Self → Self.Of → Type 0 } = { λ _ _. ⊤ };

    /// How many bytes it has at most.
    fn most(&self) -> usize
        ensures exact { result ≡ (format self.now).most }
        ensures fits { result ≤ piece_limit };

    /// Reads it.
    fn decode(&self, alloc: Global, reader: &mut Reader<'_>) -> Result<Self::Of, WireFault>
        ensures exact { Gives (λ x. ((format self.now).see x, reader.new)) result ((format self.now).read reader.old) }
        ensures holds { IfOk result (has self.now) };

    /// How many bytes one has that was read.
    fn len(&self, found: &Self::Of) -> usize
        requires { has self.now found.now }
        ensures { result ≡ length ((format self.now).spelling ((format self.now).see found.now)) };
}

#[derive(Drop)]
pub(crate) struct MembershipAt;

impl Element for MembershipAt {
    type Of = Membership;

    ghost format = { λ _. spelled_as membership_in 3098 membership_spelled length-membership };

    fn most(&self) -> usize {
        3_098
    }

    fn decode(&self, alloc: Global, reader: &mut Reader<'_>) -> Result<Membership, WireFault> {
        read_membership(alloc, reader)
    }

    fn len(&self, found: &Membership) -> usize {
        ID_LEN + 2 * FRACTION_LEN + changes_len(&found.changes)
    }
}

#[derive(Drop)]
pub(crate) struct ViewAt;

impl Element for ViewAt {
    type Of = View;

    ghost format = { λ _. spelled_as (λ v. v) 55042 view_spelled length-view };

    fn most(&self) -> usize {
        55_042
    }

    fn decode(&self, alloc: Global, reader: &mut Reader<'_>) -> Result<View, WireFault> {
        reader.view(alloc)
    }

    fn len(&self, found: &View) -> usize {
        view_len(found)
    }
}

#[derive(Drop)]
pub(crate) struct OwnAt;

impl Element for OwnAt {
    type Of = Own;

    ghost format = { λ _. spelled_as own_in 219 own_spelled length-own };

    fn most(&self) -> usize {
        219
    }

    fn decode(&self, _alloc: Global, reader: &mut Reader<'_>) -> Result<Own, WireFault> {
        read_own(reader)
    }

    fn len(&self, found: &Own) -> usize {
        NUMBER_LEN + value_len(&found.mine) + NUMBER_LEN
    }
}

#[derive(Drop)]
pub(crate) struct EnteringAt;

impl Element for EnteringAt {
    type Of = Entering;

    ghost format = { λ _. spelled_as entering_in 10 entering_spelled (λ e is. entering_small e) };

    fn most(&self) -> usize {
        NUMBER_LEN + COUNT_LEN
    }

    fn decode(&self, _alloc: Global, reader: &mut Reader<'_>) -> Result<Entering, WireFault> {
        read_entering(reader)
    }

    fn len(&self, _found: &Entering) -> usize {
        NUMBER_LEN + COUNT_LEN
    }
}

fn phase_len(round: &Round) -> usize
    ensures len { result ≡ length (phase_spelling (round_in round.now).0) }
    ensures fits { result ≤ 55129 }
{
    match round.stage {
        Stage::Idle => 1,
        Stage::Storing(pending) | Stage::Querying(pending) => 1 + pending_len(&pending),
        Stage::StoringBack(pending) => 1 + pending_len(&pending) + view_len(&round.seen),
    }
}

fn round_len(round: &Round, layout: Layout) -> usize
    ensures { result ≡ length (round_spelling layout (round_in round.now).0 round.now.share round.now.others round.now.line) }
{
    phase_len(round) + others_len(&round.others, layout) + line_len(&round.line, layout)
}

#[derive(Drop)]
pub(crate) struct RoundAt {
    pub layout: Layout,
}

impl Element for RoundAt {
    type Of = Round;

    ghost format = { λ e. spelled_as round_in 60380 (round_spelled e.layout) (length-round e.layout) };

    fn most(&self) -> usize {
        60_380
    }

    fn decode(&self, alloc: Global, reader: &mut Reader<'_>) -> Result<Round, WireFault> {
        read_round(alloc, reader, self.layout)
    }

    fn len(&self, found: &Round) -> usize {
        round_len(found, self.layout)
    }
}

#[derive(Drop)]
pub(crate) struct NumberAt;

impl Element for NumberAt {
    type Of = u64;

    ghost format = { λ _. spelled_as (λ n. n) 8 u64_spelled (λ n is. number_small n) };

    fn most(&self) -> usize {
        NUMBER_LEN
    }

    fn decode(&self, _alloc: Global, reader: &mut Reader<'_>) -> Result<u64, WireFault> {
        reader.u64()
    }

    fn len(&self, _found: &u64) -> usize {
        NUMBER_LEN
    }
}

#[derive(Drop)]
pub(crate) struct CountAt;

impl Element for CountAt {
    type Of = u16;

    ghost format = { λ _. spelled_as (λ n. n) 2 u16_spelled (λ n is. count_small n) };

    fn most(&self) -> usize {
        COUNT_LEN
    }

    fn decode(&self, _alloc: Global, reader: &mut Reader<'_>) -> Result<u16, WireFault> {
        reader.u16()
    }

    fn len(&self, _found: &u16) -> usize {
        COUNT_LEN
    }
}

// A link to a peer from this one on.
#[derive(Drop)]
pub(crate) struct LinkAt {
    pub least: u64,
    ghost from_one: { 1 ≤ least },
}

impl Element for LinkAt {
    type Of = LinkRow;

    ghost format = { λ e. spelled_as links.entry_of 28 (link_spelled e.least) (λ x is. link_small x) };

    ghost has = { λ e row. e.least ≤ row.peer };

    fn most(&self) -> usize {
        LINK_LEN
    }

    fn decode(&self, _alloc: Global, reader: &mut Reader<'_>) -> Result<LinkRow, WireFault> {
        read_link(reader, self.least)
    }

    fn len(&self, _found: &LinkRow) -> usize {
        LINK_LEN
    }
}

#[derive(Drop)]
pub(crate) struct SessionsAt;

impl Element for SessionsAt {
    type Of = Vec<SessionRow>;

    ghost format = { λ _. spelled_as (λ rows. table_of sessions.entry_of rows.items) 4098 sessions_spelled length-sessions };

    ghost has = { λ _ rows. IsRising sessions.entry_of rows.items × (length rows.items ≤ session_limit) };

    fn most(&self) -> usize {
        4_098
    }

    fn decode(&self, alloc: Global, reader: &mut Reader<'_>) -> Result<Vec<SessionRow>, WireFault> {
        read_session_table(alloc, reader)
    }

    fn len(&self, found: &Vec<SessionRow>) -> usize {
        COUNT_LEN + SESSION_LEN * found.len()
    }
}

#[derive(Drop)]
pub(crate) struct MessageAt;

impl Element for MessageAt {
    type Of = Message;

    ghost format = { λ _. spelled_as (λ m. m) 58126 message_spelled length-message };

    fn most(&self) -> usize {
        58_126
    }

    fn decode(&self, alloc: Global, reader: &mut Reader<'_>) -> Result<Message, WireFault> {
        reader.message(alloc)
    }

    fn len(&self, found: &Message) -> usize {
        message_len(found)
    }
}

// An answer that is kept for a session from this one on.
#[derive(Drop)]
pub(crate) struct KeptAnswerAt {
    pub least: u128,
}

impl Element for KeptAnswerAt {
    type Of = KeptAnswer;

    ghost format = { λ e. spelled_as answers.entry_of 55051 (kept_answer_spelled e.least) (λ x is. length-kept_answer x is.0) };

    ghost has = { λ e kept. e.least ≤ kept.session };

    fn most(&self) -> usize {
        55_051
    }

    fn decode(&self, alloc: Global, reader: &mut Reader<'_>) -> Result<KeptAnswer, WireFault> {
        read_kept_answer(alloc, reader, self.least)
    }

    fn len(&self, found: &KeptAnswer) -> usize {
        NUMBER_LEN + answer_len(&found.answer)
    }
}
