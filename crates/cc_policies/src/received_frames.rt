//! The frames that come out of a reader.

ghost use Rattle.std.specs.Prelude.{◌≡◌, ◌≤◌, ◌<◌, ◌-◌, List, ℕ, Option, Some, length, drop, IfOk, IfSome, OnErr, MatchResult};
ghost use Rattle.std.specs.Io.{ReadsAtMost};
ghost use Rattle.std.specs.Io.KnownBytes.{ReadConsumes};
ghost use Rattle.cc_policies.specs.ReceivedFrames.{ahead, unused, IsUnused, Begins, Grows, Passes, IsRefused, Ends, Next};

use cc_connections::{Fed, Frame, FrameReader};
use cc_views::NoMemory;
use cc_wire::WireFault;
use std::alloc::Global;
use std::io::Read;
use std::marker::Model;
use std::net::TcpStream;

// How many bytes are read at once.
const PIECE: usize = 4096;

// How many feeds a frame takes at most: each but the last adds a byte to it.
const MOST_FEEDS: usize = 65_540;

/// What frames are read out of.
pub trait Input {
    ghost use Rattle.std.specs.Prelude.{ℕ, List, Option};

    /// The bytes that it will give from here on, where they are known.
    ghost remaining: { Self → Option (List ℕ) };

    /// That a read of it can fail: so one of bytes in memory never does.
    ghost may_fail: { Type 0 };

    /// The next frame is read from here on, of which bytes are there already if it `has_begun`: so an input that has a clock
    /// knows how long that frame takes.
    fn begin_frame(&mut self, has_begun: bool)
        ensures { remaining self.new ≡ remaining self.old };

    /// Reads into the buffer: how many bytes, and 0 at the end of input.
    fn read_into(&mut self, buffer: &mut [u8]) -> std::io::Result<usize>
        ensures bound { ReadsAtMost result buffer.new }
        ensures bytes { ReadConsumes (remaining self.old) (remaining self.new) result buffer.new }
        ensures failed { OnErr result may_fail };
}

impl Input for &[u8] {
    ghost remaining = { λ s. Some s.now };

    ghost may_fail = { ⊥ };

    fn begin_frame(&mut self, _has_begun: bool) {}

    fn read_into(&mut self, buffer: &mut [u8]) -> std::io::Result<usize> {
        self.read(buffer)
    }
}

impl Input for &TcpStream {
    ghost use Rattle.std.specs.Prelude.{None, ⊤};

    ghost remaining = { λ _. None };

    ghost may_fail = { ⊤ };

    fn begin_frame(&mut self, _has_begun: bool) {}

    fn read_into(&mut self, buffer: &mut [u8]) -> std::io::Result<usize> {
        self.read(buffer)
    }
}

/// The frames that come out of a reader, one after the other. Contracts see the bytes that no frame was made of yet, from
/// the end of the last frame on, where they are known: those of a reader in memory are.
#[derive(Drop)]
pub struct ReceivedFrames<I: Input> {
    alloc: Global,
    reader: I,
    frames: FrameReader,
    window: Window,
}

// A piece of input, and which of its bytes weren't used yet.
#[derive(Drop)]
struct Window {
    piece: Vec<u8>,
    start: usize,
    end: usize,
}

impl<I: Input> Model for ReceivedFrames<I> {
    ghost use Rattle.std.specs.Prelude.{ℕ, List, Option};
    ghost use Rattle.cc_policies.specs.ReceivedFrames.{ahead, unused, IsUnused, Begins};

    ghost Value = { Option (List ℕ) };

    ghost view = { λ x. ahead x.frames (unused x.window.piece.items x.window.start x.window.end) (I.remaining x.reader) };

    ghost invariant = { λ x. Begins x.frames × IsUnused x.window.piece.items x.window.start x.window.end };
}

/// Why no further frame comes.
#[derive(Clone, Copy, PartialEq, Eq)]
pub enum Ending {
    /// The input has ended.
    Input,
    /// A read failed, or waited for too long.
    Failure,
    /// Bytes came that spell no frame, or a growth was refused.
    Bytes(WireFault),
}

impl<I: Input> ReceivedFrames<I> {
    /// Nothing was read yet. NoMemory where a growth was refused.
    pub fn new(alloc: Global, reader: I) -> Result<Self, NoMemory>
    where
        I: Drop,
        ensures { IfOk result (λ incoming. incoming ≡ I.remaining reader) }
    {
        let frames = FrameReader::new(alloc)?;
        let piece = vec![in alloc; 0u8; PIECE]?;
        Ok(ReceivedFrames {
            alloc,
            reader,
            frames,
            window: Window {
                piece,
                start: 0,
                end: 0,
            },
        })
    }

    /// The next frame, whose bytes are the next ones, or why none comes: then no whole frame is left, or bytes stand there
    /// that spell none, or a read failed.
    pub fn read_frame(&mut self) -> Result<Frame, Ending>
        ensures { IfSome self.old (λ bytes. MatchResult result (λ frame. Next bytes frame self.new) (λ why. Ends I.may_fail bytes why)) }
    {
        self.reader.begin_frame(self.window.start < self.window.end);
        read_whole(
            self.alloc,
            &mut self.reader,
            &mut self.frames,
            &mut self.window,
        )
    }
}

// The next frame, by as many feeds as it takes.
fn read_whole<I: Input>(
    alloc: Global,
    reader: &mut I,
    frames: &mut FrameReader,
    window: &mut Window,
) -> Result<Frame, Ending>
    requires begins { Begins frames.old }
    requires unused { IsUnused window.old.piece.items window.old.start window.old.end }
    ensures begins { Begins frames.new }
    ensures unused { IsUnused window.new.piece.items window.new.start window.new.end }
    ensures gives { IfSome (ahead frames.old (unused window.old.piece.items window.old.start window.old.end) (I.remaining reader.old))
        (λ bytes. MatchResult result
        (λ frame. Next bytes frame (ahead frames.new (unused window.new.piece.items window.new.start window.new.end) (I.remaining reader.new)))
        (λ why. Ends I.may_fail bytes why)) }
{
    for _ in 0..MOST_FEEDS {
        refill(reader, window)?;
        match feed_rest(frames, alloc, window) {
            Ok(Some(frame)) => return Ok(frame),
            Ok(None) => {}
            Err(fault) => return Err(Ending::Bytes(fault)),
        }
    }
    unreachable!()
}

// Reads a piece where all of the last one was used.
fn refill<I: Input>(reader: &mut I, window: &mut Window) -> Result<(), Ending>
    requires unused { IsUnused window.old.piece.items window.old.start window.old.end }
    ensures unused { IsUnused window.new.piece.items window.new.start window.new.end }
    ensures some { IfOk result (λ _. window.new.start < window.new.end) }
    ensures gives { (held : Option (List ℕ)) → IfSome (ahead held (unused window.old.piece.items window.old.start window.old.end)
        (I.remaining reader.old)) (λ bytes. MatchResult result
        (λ _. ahead held (unused window.new.piece.items window.new.start window.new.end) (I.remaining reader.new) ≡ Some bytes)
        (λ why. Begins held → Ends I.may_fail bytes why)) }
{
    if window.start < window.end {
        return Ok(());
    }
    match reader.read_into(window.piece.as_mut_slice()) {
        Ok(count) => {
            window.start = 0;
            window.end = count;
            if count == 0 {
                return Err(Ending::Input);
            }
            Ok(())
        }
        Err(_) => Err(Ending::Failure),
    }
}

// One feed: what it gives of the bytes that are known, whatever follows them.
fn feed(frames: &mut FrameReader, alloc: Global, piece: &[u8]) -> Result<Fed, WireFault>
    requires { Begins frames.old }
    ensures begins { Begins frames.new }
    ensures used { IfOk result (λ given. given.used ≤ length piece.now) }
    ensures grows { IfOk result (λ given. Grows frames.old (length piece.now) given.frame frames.new) }
    ensures gives { (rest : Option (List ℕ)) → IfSome (ahead frames.old piece.now rest) (λ bytes. MatchResult result
        (λ given. Passes bytes given.frame (ahead frames.new (drop given.used piece.now) rest))
        (λ fault. IsRefused bytes fault)) }
{
    frames.feed(alloc, piece)
}

// Feeds what wasn't used of a window.
fn feed_rest(
    frames: &mut FrameReader,
    alloc: Global,
    window: &mut Window,
) -> Result<Option<Frame>, WireFault>
    requires begins { Begins frames.old }
    requires unused { IsUnused window.old.piece.items window.old.start window.old.end }
    ensures begins { Begins frames.new }
    ensures unused { IsUnused window.new.piece.items window.new.start window.new.end }
    ensures grows { IfOk result (λ frame. Grows frames.old (window.old.end - window.old.start) frame frames.new) }
    ensures gives { (rest : Option (List ℕ)) → IfSome (ahead frames.old (unused window.old.piece.items window.old.start window.old.end) rest)
        (λ bytes. MatchResult result
        (λ frame. Passes bytes frame (ahead frames.new (unused window.new.piece.items window.new.start window.new.end) rest))
        (λ fault. IsRefused bytes fault)) }
{
    let piece = window.piece.as_slice();
    feed_from(frames, alloc, piece, &mut window.start, window.end)
}

// Feeds the bytes of a piece from `start` to `end`.
fn feed_from(
    frames: &mut FrameReader,
    alloc: Global,
    piece: &[u8],
    start: &mut usize,
    end: usize,
) -> Result<Option<Frame>, WireFault>
    requires begins { Begins frames.old }
    requires within { (start.old ≤ end) × (end ≤ length piece.now) }
    ensures begins { Begins frames.new }
    ensures start { start.new ≤ end }
    ensures grows { IfOk result (λ frame. Grows frames.old (end - start.old) frame frames.new) }
    ensures gives { (rest : Option (List ℕ)) → IfSome (ahead frames.old (unused piece.now start.old end) rest) (λ bytes. MatchResult result
        (λ frame. Passes bytes frame (ahead frames.new (unused piece.now start.new end) rest))
        (λ fault. IsRefused bytes fault)) }
{
    match feed(frames, alloc, &piece[*start..end]) {
        Ok(given) => {
            *start += given.used;
            Ok(given.frame)
        }
        Err(fault) => Err(fault),
    }
}
