//! Frames: what goes over a connection.

ghost use Rattle.std.specs.Prelude.{◌≡◌, ◌≤◌, ◌<◌, ◌+◌, ◌-◌, ℕ, List, [], ◌∷◌, ◌++◌, length, take, drop, IfOk, OnOk, OnErr, IsOk, IfSome, Ok, vec_len};
ghost use Rattle.std.specs.Int.{w32, w64, to_be_bytes};
ghost use Rattle.std.specs.Vec.{vec_capacity};
ghost use Rattle.cc_connections.specs.Limits.{body_limit};
ghost use Rattle.cc_connections.specs.declared.frame.Frame.TheVariants as frames;
ghost use Rattle.cc_wire.specs.Writers.{Writes};
ghost use Rattle.cc_wire.specs.Messages.{message_spelling, IsMessage};
ghost use Rattle.cc_wire.specs.Events.{delivery_spelling, IsDelivery};
ghost use Rattle.cc_wire.specs.Readers.{Gives, whole};
ghost use Rattle.cc_connections.specs.Frames.{replied_spelling, IsReplied, refused_spelling, IsRefused, body_spelling, frame_spelling, IsFrame};
ghost use Rattle.cc_connections.specs.Frames.{SpellsFrame, body_at, body_fields, replied_at, refused_at, body_length_at, enclosed_at, frame_at};

use crate::hello::{Hello, Reason, put_hello, put_unwelcome, read_hello, read_unwelcome};
use byteorder::{BigEndian, ByteOrder};
use cc_messages::{Answer, Command, Message, PostRange, Share};
use cc_views::{NoMemory, NodeId};
use cc_wire::{
    Reader, WireFault, message_is_spellable, put_answer, put_asked, put_id, put_message,
    put_numbered, put_place, put_share, put_skip, put_u8, put_u32, put_u64, settled,
};
use std::alloc::{AllocError, Global};

/// What goes over a connection, between nodes or between a client and a node.
#[derive(Drop)]
pub enum Frame {
    /// A message from a node, the one with this number on its link.
    Post {
        from: NodeId,
        number: u64,
        message: Message,
    },
    /// A node has what was sent to it up to this number.
    Ack {
        from: NodeId,
        number: u64,
    },
    /// A client asks for something.
    Ask {
        session: u64,
        request: u64,
        command: Command,
    },
    /// The answer to a request.
    Reply {
        session: u64,
        request: u64,
        answer: Answer,
    },
    /// A request is refused: the number of the refusal, and what it carries.
    Refused {
        session: u64,
        request: u64,
        refusal: u8,
        value: u64,
    },
    /// The node is to leave the cluster.
    Leave,
    /// The operator tells the node that another, or it itself, is dead for good.
    Retire {
        node: NodeId,
    },
    /// The posts of a node under these numbers are for others than the one that this goes to.
    Skip {
        from: NodeId,
        posts: PostRange,
    },
    /// What a node greets another with, over each connection that it makes to it.
    Hello(Hello),
    /// The node that was greeted takes the other. The last number of the other's posts that it has taken in.
    Welcome {
        heard: u64,
    },
    /// As `Welcome`. Besides, two processes greet in turn as the node that is taken.
    Doubled {
        heard: u64,
    },
    /// The node that was greeted, the one with this id, doesn't take the other.
    Unwelcome {
        reason: Reason,
        node: NodeId,
    },
    /// As `Retire`, unless the node was heard of so recently that it can't be dead.
    RetireIfSilent {
        node: NodeId,
    },
    /// The operator tells how many asks of one kind may begin together from the next round on.
    Share {
        share: Share,
    },
}

impl Frame {
    /// How long the body of a frame is at most, in bytes.
    pub const MAX_BODY: usize = 65_536;

    /// How many bytes the length of a body takes.
    pub(crate) const LENGTH: usize = 4;
}

// The answer to the command at a place.
fn read_replied(alloc: Global, reader: &mut Reader<'_>) -> Result<((u64, u64), Answer), WireFault>
    ensures { Gives (λ x. (x, reader.new)) result (replied_at reader.old) }
{
    let place = reader.place()?;
    let answer = reader.answer(alloc)?;
    Ok((place, answer))
}

// The number of the refusal of the command at a place, and what the refusal carries.
fn read_refused(reader: &mut Reader<'_>) -> Result<((u64, u64), (u8, u64)), WireFault>
    ensures { Gives (λ x. (x, reader.new)) result (refused_at reader.old) }
{
    let place = reader.place()?;
    let refusal = reader.u8()?;
    let value = reader.u64()?;
    Ok((place, (refusal, value)))
}

// The fields of a frame that a client sends or gets, of that kind.
fn read_session_fields(alloc: Global, reader: &mut Reader<'_>, kind: u8) -> Result<Frame, WireFault>
    requires { (3 ≤ kind) × (kind ≤ 5) }
    ensures { Gives (λ x. (x, reader.new)) result (body_fields kind reader.old) }
{
    match kind {
        3 => {
            let ((session, request), command) = reader.asked()?;
            Ok(Frame::Ask {
                session,
                request,
                command,
            })
        }
        4 => {
            let ((session, request), answer) = read_replied(alloc, reader)?;
            Ok(Frame::Reply {
                session,
                request,
                answer,
            })
        }
        _ => {
            let ((session, request), (refusal, value)) = read_refused(reader)?;
            Ok(Frame::Refused {
                session,
                request,
                refusal,
                value,
            })
        }
    }
}

// The fields of a frame of a greeting, of that kind.
fn read_greeting_fields(reader: &mut Reader<'_>, kind: u8) -> Result<Frame, WireFault>
    requires { (33 ≤ kind) × (kind ≤ 35) }
    ensures { Gives (λ x. (x, reader.new)) result (body_fields kind reader.old) }
{
    match kind {
        33 => read_hello(reader).map(Frame::Hello),
        34 => {
            let heard = reader.u64()?;
            Ok(Frame::Welcome { heard })
        }
        _ => {
            let (reason, node) = read_unwelcome(reader)?;
            Ok(Frame::Unwelcome { reason, node })
        }
    }
}

// The fields of a frame of that kind.
fn read_body_fields(alloc: Global, reader: &mut Reader<'_>, kind: u8) -> Result<Frame, WireFault>
    ensures { Gives (λ x. (x, reader.new)) result (body_fields kind reader.old) }
{
    match kind {
        1 => {
            let ((from, number), message) = reader.delivery(alloc)?;
            Ok(Frame::Post {
                from,
                number,
                message,
            })
        }
        2 => {
            let (from, number) = reader.numbered()?;
            Ok(Frame::Ack { from, number })
        }
        3 | 4 | 5 => read_session_fields(alloc, reader, kind),
        6 => Ok(Frame::Leave),
        7 => {
            let node = reader.id(1)?;
            Ok(Frame::Retire { node })
        }
        32 => {
            let (from, posts) = reader.skip()?;
            Ok(Frame::Skip { from, posts })
        }
        33 | 34 | 35 => read_greeting_fields(reader, kind),
        36 => {
            let node = reader.id(1)?;
            Ok(Frame::RetireIfSilent { node })
        }
        37 => {
            let share = reader.share()?;
            Ok(Frame::Share { share })
        }
        38 => {
            let heard = reader.u64()?;
            Ok(Frame::Doubled { heard })
        }
        kind => Err(WireFault::BadKind(kind)),
    }
}

#[tactic(auto, unfolding(crate::specs::Frames::body_at))]
fn read_body(alloc: Global, reader: &mut Reader<'_>) -> Result<Frame, WireFault>
    ensures { Gives (λ x. (x, reader.new)) result (body_at reader.old) }
{
    let kind = reader.u8()?;
    read_body_fields(alloc, reader, kind)
}

// The length of a body.
#[tactic(auto, unfolding(crate::specs::Frames::body_length_at))]
pub(crate) fn read_body_length(reader: &mut Reader<'_>) -> Result<usize, WireFault>
    ensures exact { Gives (λ x. (x, reader.new)) result (body_length_at reader.old) }
    ensures fits { IfOk result (λ x. x ≤ body_limit) }
{
    let length = reader.u32()? as usize;
    if length > Frame::MAX_BODY {
        return Err(WireFault::TooLarge);
    }
    if length == 0 {
        return Err(WireFault::Short);
    }
    Ok(length)
}

// The frame whose body is so long. The fields of a body that is cut off are read as far as they go.
#[tactic(auto, unfolding(crate::specs::Frames::enclosed_at))]
fn read_enclosed(alloc: Global, reader: &mut Reader<'_>, length: usize) -> Result<Frame, WireFault>
    ensures { Gives (λ x. (x, reader.new)) result (enclosed_at length reader.old) }
{
    let frame = decode_body(alloc, reader.front(length))?;
    if let Err(fault) = reader.bytes(length) {
        drop(frame);
        return Err(fault);
    }
    Ok(frame)
}

#[tactic(auto, unfolding(crate::specs::Frames::frame_at))]
pub(crate) fn read_frame(alloc: Global, reader: &mut Reader<'_>) -> Result<Frame, WireFault>
    ensures { Gives (λ x. (x, reader.new)) result (frame_at reader.old) }
{
    let length = read_body_length(reader)?;
    read_enclosed(alloc, reader, length)
}

#[tactic(auto, unfolding(cc_wire::specs::Readers::whole))]
fn decode_body(alloc: Global, bytes: &[u8]) -> Result<Frame, WireFault>
    ensures { Gives (λ x. x) result (whole body_at bytes.now) }
{
    let mut reader = Reader::new(bytes);
    let frame = read_body(alloc, &mut reader)?;
    if let Err(fault) = reader.end() {
        drop(frame);
        return Err(fault);
    }
    Ok(frame)
}

fn put_replied(
    out: &mut Vec<u8>,
    session: u64,
    request: u64,
    answer: &Answer,
) -> Result<(), AllocError>
    ensures writes { Writes out.old out.new (replied_spelling session request answer.now) result }
    ensures fits { OnOk result (IsReplied session request answer.now) }
{
    put_place(out, session, request)?;
    put_answer(out, answer)
}

fn put_refusal(out: &mut Vec<u8>, refusal: u8, value: u64) -> Result<(), AllocError>
    ensures { Writes out.old out.new (refusal ∷ to_be_bytes w64 value) result }
{
    put_u8(out, refusal)?;
    put_u64(out, value)
}

fn put_refused(
    out: &mut Vec<u8>,
    session: u64,
    request: u64,
    refusal: u8,
    value: u64,
) -> Result<(), AllocError>
    ensures writes { Writes out.old out.new (refused_spelling session request refusal value) result }
    ensures fits { IsRefused session request refusal value }
{
    put_place(out, session, request)?;
    put_refusal(out, refusal, value)
}

// Appends a message, whose bytes are copied where they are at hand.
fn put_spelled(
    out: &mut Vec<u8>,
    message: &Message,
    spelled: Option<&[u8]>,
) -> Result<(), AllocError>
    requires { IfSome spelled (λ bytes. bytes.now ≡ message_spelling message.now) }
    ensures writes { Writes out.old out.new (message_spelling message.now) result }
    ensures fits { OnOk result (IsMessage message.now) }
{
    let Some(bytes) = spelled else {
        return put_message(out, message);
    };
    message_is_spellable(message);
    out.extend_from_slice(bytes)
}

// Appends a message that came from a node under a number.
fn put_spelled_delivery(
    out: &mut Vec<u8>,
    from: NodeId,
    number: u64,
    message: &Message,
    spelled: Option<&[u8]>,
) -> Result<(), AllocError>
    requires { IfSome spelled (λ bytes. bytes.now ≡ message_spelling message.now) }
    ensures writes { Writes out.old out.new (delivery_spelling from number message.now) result }
    ensures fits { OnOk result (IsDelivery from number message.now) }
{
    put_numbered(out, from, number)?;
    put_spelled(out, message, spelled)
}

// The body that brings a message.
fn put_post_body(
    out: &mut Vec<u8>,
    from: NodeId,
    number: u64,
    message: &Message,
    spelled: Option<&[u8]>,
) -> Result<(), AllocError>
    requires { IfSome spelled (λ bytes. bytes.now ≡ message_spelling message.now) }
    ensures writes { Writes out.old out.new (body_spelling (frames.Post from number message.now)) result }
    ensures fits { OnOk result (IsFrame (frames.Post from number message.now)) }
{
    put_u8(out, 1)?;
    put_spelled_delivery(out, from, number, message, spelled)
}

// The body that brings an answer.
fn put_reply_body(
    out: &mut Vec<u8>,
    session: u64,
    request: u64,
    answer: &Answer,
) -> Result<(), AllocError>
    ensures writes { Writes out.old out.new (body_spelling (frames.Reply session request answer.now)) result }
    ensures fits { OnOk result (IsFrame (frames.Reply session request answer.now)) }
{
    put_u8(out, 4)?;
    put_replied(out, session, request, answer)
}

fn put_body(out: &mut Vec<u8>, frame: &Frame) -> Result<(), AllocError>
    ensures writes { Writes out.old out.new (body_spelling frame.now) result }
    ensures fits { OnOk result (IsFrame frame.now) }
{
    match frame {
        Frame::Post {
            from,
            number,
            message,
        } => put_post_body(out, *from, *number, message, None),
        Frame::Ack { from, number } => {
            put_u8(out, 2)?;
            put_numbered(out, *from, *number)
        }
        Frame::Ask {
            session,
            request,
            command,
        } => {
            put_u8(out, 3)?;
            put_asked(out, *session, *request, command)
        }
        Frame::Reply {
            session,
            request,
            answer,
        } => put_reply_body(out, *session, *request, answer),
        Frame::Refused {
            session,
            request,
            refusal,
            value,
        } => {
            put_u8(out, 5)?;
            put_refused(out, *session, *request, *refusal, *value)
        }
        Frame::Leave => put_u8(out, 6),
        Frame::Retire { node } => {
            put_u8(out, 7)?;
            put_id(out, *node)
        }
        Frame::Skip { from, posts } => {
            put_u8(out, 32)?;
            put_skip(out, *from, *posts)
        }
        Frame::Hello(hello) => {
            put_u8(out, 33)?;
            put_hello(out, hello)
        }
        Frame::Welcome { heard } => {
            put_u8(out, 34)?;
            put_u64(out, *heard)
        }
        Frame::Doubled { heard } => {
            put_u8(out, 38)?;
            put_u64(out, *heard)
        }
        Frame::Unwelcome { reason, node } => {
            put_u8(out, 35)?;
            put_unwelcome(out, *reason, *node)
        }
        Frame::RetireIfSilent { node } => {
            put_u8(out, 36)?;
            put_id(out, *node)
        }
        Frame::Share { share } => {
            put_u8(out, 37)?;
            put_share(out, *share)
        }
    }
}

// Writes over four bytes.
fn set_length(bytes: &mut [u8], at: usize, number: u32)
    requires { at + 4 ≤ length bytes.old }
    ensures { bytes.new ≡ take at bytes.old ++ (to_be_bytes w32 number ++ drop (at + 4) bytes.old) }
{
    let mut field = [0; Frame::LENGTH];
    BigEndian::write_u32(&mut field, number);
    bytes[at..at + Frame::LENGTH].copy_from_slice(&field);
}

/// The frame that the bytes spell, all of the bytes.
/// The fault is that of the first field, from left to right, that can't be read.
pub fn decode_frame(alloc: Global, bytes: &[u8]) -> Result<Frame, WireFault>
    // What is read is spelled so.
    ensures found { IfOk result (λ x. SpellsFrame bytes.now x) }
    // What is spelled so is read, unless memory runs out.
    ensures only { (x : Frame) → SpellsFrame bytes.now x → Gives (λ x. x) result (Ok x) }
    // Which fault it is.
    ensures exact { Gives (λ x. x) result (whole frame_at bytes.now) }
{
    decode_all(alloc, bytes)
}

#[tactic(auto, unfolding(cc_wire::specs::Readers::whole))]
fn decode_all(alloc: Global, bytes: &[u8]) -> Result<Frame, WireFault>
    ensures { Gives (λ x. x) result (whole frame_at bytes.now) }
{
    let mut reader = Reader::new(bytes);
    let frame = read_frame(alloc, &mut reader)?;
    if let Err(fault) = reader.end() {
        drop(frame);
        return Err(fault);
    }
    Ok(frame)
}

// Writes the length of the body that ends the bytes, over those that keep its place.
fn close_body(out: &mut Vec<u8>, start: usize)
    requires kept { start + 4 ≤ vec_len out.old }
    requires fits { vec_len out.old ≤ start + 4 + body_limit }
    ensures closed { out.new.items ≡ take start out.old.items ++ (to_be_bytes w32 (length out.old.items - start - 4) ++ drop (start + 4) out.old.items) }
    ensures room { vec_capacity out.new ≡ vec_capacity out.old }
{
    let length = out.len() - start - Frame::LENGTH;
    set_length(out, start, length as u32);
}

// The length is written last.
fn put_frame(out: &mut Vec<u8>, frame: &Frame) -> Result<(), AllocError>
    ensures writes { Writes out.old out.new (frame_spelling frame.now) result }
    ensures fits { OnOk result (IsFrame frame.now) }
{
    let start = out.len();
    put_u32(out, 0)?;
    put_body(out, frame)?;
    close_body(out, start);
    Ok(())
}

// The same of a post and of a reply, whose message or answer stays where it is.
fn put_post(
    out: &mut Vec<u8>,
    from: NodeId,
    number: u64,
    message: &Message,
    spelled: Option<&[u8]>,
) -> Result<(), AllocError>
    requires { IfSome spelled (λ bytes. bytes.now ≡ message_spelling message.now) }
    ensures writes { Writes out.old out.new (frame_spelling (frames.Post from number message.now)) result }
    ensures fits { OnOk result (IsFrame (frames.Post from number message.now)) }
{
    let start = out.len();
    put_u32(out, 0)?;
    put_post_body(out, from, number, message, spelled)?;
    close_body(out, start);
    Ok(())
}

fn put_reply(
    out: &mut Vec<u8>,
    session: u64,
    request: u64,
    answer: &Answer,
) -> Result<(), AllocError>
    ensures writes { Writes out.old out.new (frame_spelling (frames.Reply session request answer.now)) result }
    ensures fits { OnOk result (IsFrame (frames.Reply session request answer.now)) }
{
    let start = out.len();
    put_u32(out, 0)?;
    put_reply_body(out, session, request, answer)?;
    close_body(out, start);
    Ok(())
}

/// Appends the spelling of a frame. On an `Err` nothing has changed.
pub fn encode_frame(frame: &Frame, out: &mut Vec<u8>) -> Result<(), NoMemory>
    ensures spelled { OnOk result (SpellsFrame (frame_spelling frame.now) frame.now) }
    ensures ok { OnOk result (out.new.items ≡ out.old.items ++ frame_spelling frame.now) }
    ensures err { OnErr result (out.new.items ≡ out.old.items) }
    ensures room { vec_len out.old + length (frame_spelling frame.now) ≤ vec_capacity out.old → IsOk result }
{
    let start = out.len();
    let put = put_frame(out, frame);
    settled(out, start, put)
}

/// Appends the spelling of the frame that brings a message, the one with this number on the link from a node. The message
/// isn't copied, nor spelled where its bytes are at hand. On an `Err` nothing has changed.
pub fn encode_post(
    from: NodeId,
    number: u64,
    message: &Message,
    spelled: Option<&[u8]>,
    out: &mut Vec<u8>,
) -> Result<(), NoMemory>
    requires { IfSome spelled (λ bytes. bytes.now ≡ message_spelling message.now) }
    ensures spelled { OnOk result (SpellsFrame (frame_spelling (frames.Post from number message.now)) (frames.Post from number message.now)) }
    ensures ok { OnOk result (out.new.items ≡ out.old.items ++ frame_spelling (frames.Post from number message.now)) }
    ensures err { OnErr result (out.new.items ≡ out.old.items) }
    ensures room { vec_len out.old + length (frame_spelling (frames.Post from number message.now)) ≤ vec_capacity out.old → IsOk result }
{
    let start = out.len();
    let put = put_post(out, from, number, message, spelled);
    settled(out, start, put)
}

/// Appends the spelling of the frame that answers a request. The answer isn't copied. On an `Err` nothing has changed.
pub fn encode_reply(
    session: u64,
    request: u64,
    answer: &Answer,
    out: &mut Vec<u8>,
) -> Result<(), NoMemory>
    ensures spelled { OnOk result (SpellsFrame (frame_spelling (frames.Reply session request answer.now)) (frames.Reply session request answer.now)) }
    ensures ok { OnOk result (out.new.items ≡ out.old.items ++ frame_spelling (frames.Reply session request answer.now)) }
    ensures err { OnErr result (out.new.items ≡ out.old.items) }
    ensures room { vec_len out.old + length (frame_spelling (frames.Reply session request answer.now)) ≤ vec_capacity out.old → IsOk result }
{
    let start = out.len();
    let put = put_reply(out, session, request, answer);
    settled(out, start, put)
}

/// Each frame has one spelling, and none begins another.
pub fn one_spelling_of_frames()
    ensures one { (a b u w : List ℕ) (x y : Frame) → SpellsFrame a x → SpellsFrame b y → a ++ u ≡ b ++ w → (x ≡ y) × (a ≡ b) }
    ensures same { (a b : List ℕ) (x : Frame) → SpellsFrame a x → SpellsFrame b x → a ≡ b }
{}
