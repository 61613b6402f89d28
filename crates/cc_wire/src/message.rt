//! Messages as bytes.

ghost use Rattle.std.specs.Prelude.{◌≡◌, ◌≤◌, ◌+◌, ℕ, List, [], ◌∷◌, ◌++◌, length, IfOk, OnOk, OnErr, IsOk, Ok, vec_len};
ghost use Rattle.std.specs.Vec.{vec_capacity};
ghost use Rattle.cc_wire.specs.Writers.{Writes};
ghost use Rattle.cc_wire.specs.Readers.{◌⊗◌, Gives, via, flag_at, number_from, view_at, whole};
ghost use Rattle.cc_messages.specs.declared.message.Message.TheVariants as variants;
ghost use Rattle.cc_wire.specs.Messages.{message_at, fields_of, call_at, echo_at, snapshot_at, message_spelling, IsMessage, SpellsMessage};
ghost use Rattle.cc_wire.specs.Messages.{call_spelling, IsCall, echo_spelling, IsEcho, snapshot_spelling, IsSnapshot};
ghost use Rattle.cc_wire.specs.Spellings.{view_spelling, IsView, number_spelling, IsId};

use crate::changes_bytes::{put_changes, put_id};
use crate::fault::WireFault;
use crate::reader::Reader;
use crate::writer::{put_flag, put_u8, put_u32, put_u64, put_view, settled};
use cc_changes::Changes;
use cc_messages::Message;
use cc_views::{NoMemory, NodeId, View};
use std::alloc::{AllocError, Global};

impl<'a> Reader<'a> {
    // A tag and a node.
    fn call(&mut self) -> Result<(u64, NodeId), WireFault>
        ensures { Gives (λ x. (x, self.new)) result (call_at self.old) }
    {
        let tag = self.u64()?;
        let node = self.id(1)?;
        Ok((tag, node))
    }

    // The view that is shown with a call.
    fn shown(&mut self, alloc: Global) -> Result<(View, (u64, NodeId)), WireFault>
        ensures { Gives (λ x. (x, self.new)) result ((view_at ⊗ call_at) self.old) }
    {
        let view = self.view(alloc)?;
        match self.call() {
            Ok(call) => Ok((view, call)),
            Err(fault) => {
                drop(view);
                Err(fault)
            }
        }
    }

    // Whether the sender of an echo has joined, and the node that enters.
    fn joined(&mut self) -> Result<(bool, NodeId), WireFault>
        ensures { Gives (λ x. (x, self.new)) result ((flag_at ⊗ number_from 1) self.old) }
    {
        let is_joined = self.flag()?;
        let node = self.id(1)?;
        Ok((is_joined, node))
    }

    // What an echo tells behind the changes.
    fn echoed(&mut self, alloc: Global) -> Result<(View, (bool, NodeId)), WireFault>
        ensures { Gives (λ x. (x, self.new)) result ((view_at ⊗ flag_at ⊗ number_from 1) self.old) }
    {
        let view = self.view(alloc)?;
        match self.joined() {
            Ok(joined) => Ok((view, joined)),
            Err(fault) => {
                drop(view);
                Err(fault)
            }
        }
    }

    // What an echo tells.
    fn echo(&mut self, alloc: Global) -> Result<Message, WireFault>
        ensures { Gives (λ x. (x, self.new)) result (via (λ f. variants.EnterEcho f.0 f.1.0 f.1.1.0 f.1.1.1) echo_at self.old) }
    {
        let changes = self.changes(alloc)?;
        match self.echoed(alloc) {
            Ok((view, (is_joined, node))) => Ok(Message::EnterEcho {
                changes,
                view,
                is_joined,
                node,
            }),
            Err(fault) => {
                drop(changes);
                Err(fault)
            }
        }
    }

    // What a snapshot tells.
    fn snapshot(&mut self, alloc: Global) -> Result<Message, WireFault>
        ensures { Gives (λ x. (x, self.new)) result (via (λ f. variants.Snapshot f.0 f.1) snapshot_at self.old) }
    {
        let changes = self.changes(alloc)?;
        match self.view(alloc) {
            Ok(view) => Ok(Message::Snapshot { changes, view }),
            Err(fault) => {
                drop(changes);
                Err(fault)
            }
        }
    }

    // The fields of a message of that kind.
    fn fields(&mut self, alloc: Global, kind: u8) -> Result<Message, WireFault>
        ensures { Gives (λ x. (x, self.new)) result (fields_of kind self.old) }
    {
        match kind {
            1 => Ok(Message::Enter { node: self.id(1)? }),
            2 => self.echo(alloc),
            3 => Ok(Message::Join { node: self.id(1)? }),
            4 => Ok(Message::JoinEcho { node: self.id(1)? }),
            5 => Ok(Message::Leave { node: self.id(1)? }),
            6 => Ok(Message::LeaveEcho { node: self.id(1)? }),
            7 => {
                let (tag, node) = self.call()?;
                Ok(Message::Query { tag, node })
            }
            8 => {
                let (view, (tag, node)) = self.shown(alloc)?;
                Ok(Message::QueryReply { view, tag, node })
            }
            9 => {
                let (view, (tag, node)) = self.shown(alloc)?;
                Ok(Message::Store { view, tag, node })
            }
            10 => {
                let (tag, node) = self.call()?;
                Ok(Message::StoreAck { tag, node })
            }
            32 => self.snapshot(alloc),
            kind => Err(WireFault::BadKind(kind)),
        }
    }

    /// A message: its kind, and the fields of that. BadKind for a kind that no message has.
    #[tactic(auto, unfolding(crate::specs::Messages::message_at))]
    pub fn message(&mut self, alloc: Global) -> Result<Message, WireFault>
        ensures { Gives (λ x. (x, self.new)) result (message_at self.old) }
    {
        let kind = self.u8()?;
        self.fields(alloc, kind)
    }
}

#[tactic(auto, unfolding(crate::specs::Readers::whole))]
fn decode_all(alloc: Global, bytes: &[u8]) -> Result<Message, WireFault>
    ensures { Gives (λ m. m) result (whole message_at bytes.now) }
{
    let mut reader = Reader::new(bytes);
    let message = reader.message(alloc)?;
    if let Err(fault) = reader.end() {
        drop(message);
        return Err(fault);
    }
    Ok(message)
}

/// The message that the bytes spell, all of the bytes.
/// The fault is that of the first field, from left to right, that can't be read.
pub fn decode_message(alloc: Global, bytes: &[u8]) -> Result<Message, WireFault>
    // What is read is spelled so.
    ensures found { IfOk result (λ m. SpellsMessage bytes.now m) }
    // What is spelled so is read, unless memory runs out.
    ensures only { (m : Message) → SpellsMessage bytes.now m → Gives (λ m. m) result (Ok m) }
    // Which fault it is.
    ensures exact { Gives (λ m. m) result (whole message_at bytes.now) }
{
    decode_all(alloc, bytes)
}

fn put_call(out: &mut Vec<u8>, tag: u64, node: NodeId) -> Result<(), AllocError>
    ensures writes { Writes out.old out.new (call_spelling tag node) result }
    ensures fits { IsCall tag node }
{
    put_u64(out, tag)?;
    put_u32(out, node.number())
}

fn put_view_call(out: &mut Vec<u8>, view: &View, tag: u64, node: NodeId) -> Result<(), AllocError>
    ensures writes { Writes out.old out.new (view_spelling view.now ++ call_spelling tag node) result }
    ensures fits { OnOk result (IsView view.now × IsCall tag node) }
{
    put_view(out, view)?;
    put_call(out, tag, node)
}

fn put_echo(
    out: &mut Vec<u8>,
    changes: &Changes,
    view: &View,
    is_joined: bool,
    node: NodeId,
) -> Result<(), AllocError>
    ensures writes { Writes out.old out.new (echo_spelling changes.now view.now is_joined node) result }
    ensures fits { OnOk result (IsEcho changes.now view.now node) }
{
    put_changes(out, changes)?;
    put_view(out, view)?;
    put_flag(out, is_joined)?;
    put_id(out, node)
}

fn put_snapshot(out: &mut Vec<u8>, changes: &Changes, view: &View) -> Result<(), AllocError>
    ensures writes { Writes out.old out.new (snapshot_spelling changes.now view.now) result }
    ensures fits { OnOk result (IsSnapshot changes.now view.now) }
{
    put_changes(out, changes)?;
    put_view(out, view)
}

/// Appends a kind that has a node alone.
pub(crate) fn put_news(out: &mut Vec<u8>, kind: u8, node: NodeId) -> Result<(), AllocError>
    ensures writes { Writes out.old out.new (kind ∷ number_spelling node) result }
    ensures fits { OnOk result (IsId node) }
{
    put_u8(out, kind)?;
    put_id(out, node)
}

/// Appends a message, as `Reader::message` reads it. On an `Err` a part may stand at the end.
pub fn put_message(out: &mut Vec<u8>, message: &Message) -> Result<(), AllocError>
    ensures writes { Writes out.old out.new (message_spelling message.now) result }
    ensures fits { OnOk result (IsMessage message.now) }
{
    match message {
        Message::Enter { node } => put_news(out, 1, *node),
        Message::EnterEcho {
            changes,
            view,
            is_joined,
            node,
        } => {
            put_u8(out, 2)?;
            put_echo(out, changes, view, *is_joined, *node)
        }
        Message::Join { node } => put_news(out, 3, *node),
        Message::JoinEcho { node } => put_news(out, 4, *node),
        Message::Leave { node } => put_news(out, 5, *node),
        Message::LeaveEcho { node } => put_news(out, 6, *node),
        Message::Query { tag, node } => {
            put_u8(out, 7)?;
            put_call(out, *tag, *node)
        }
        Message::QueryReply { view, tag, node } => {
            put_u8(out, 8)?;
            put_view_call(out, view, *tag, *node)
        }
        Message::Store { view, tag, node } => {
            put_u8(out, 9)?;
            put_view_call(out, view, *tag, *node)
        }
        Message::StoreAck { tag, node } => {
            put_u8(out, 10)?;
            put_call(out, *tag, *node)
        }
        Message::Snapshot { changes, view } => {
            put_u8(out, 32)?;
            put_snapshot(out, changes, view)
        }
    }
}

/// Appends the spelling of a message. On an `Err` nothing has changed.
pub fn encode_message(message: &Message, out: &mut Vec<u8>) -> Result<(), NoMemory>
    ensures spelled { OnOk result (SpellsMessage (message_spelling message.now) message.now) }
    ensures ok { OnOk result (out.new.items ≡ out.old.items ++ message_spelling message.now) }
    ensures err { OnErr result (out.new.items ≡ out.old.items) }
    ensures room { vec_len out.old + length (message_spelling message.now) ≤ vec_capacity out.old → IsOk result }
{
    let start = out.len();
    let put = put_message(out, message);
    settled(out, start, put)
}

/// Each message has one spelling, and none begins another.
pub fn one_spelling_of_messages()
    ensures one { (a b u w : List ℕ) (x y : Message) → SpellsMessage a x → SpellsMessage b y → a ++ u ≡ b ++ w → (x ≡ y) × (a ≡ b) }
    ensures same { (a b : List ℕ) (x : Message) → SpellsMessage a x → SpellsMessage b x → a ≡ b }
{}
