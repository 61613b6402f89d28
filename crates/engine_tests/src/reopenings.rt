//! A sync that fails once: reads show what was to be written, and a power cut leaves what was there before.

ghost use Rattle.cc_site.specs.Moments.{CountsFault};

use crate::parts::{Part, batch_of};
use crate::sites::MEMBER;
use cc_checkpoint::OpenFault;
use cc_flush::{Back, Flusher, format, open_anew};
use cc_messages::{Answer, Message};
use cc_site::{Call, DeviceFault, Side, Site};
use cc_views::NodeId;
use std::process::Abort;
use std::test::*;

// A place of a file: what reads show, what the disk has, and whether the next sync writes it.
#[derive(Clone, Copy)]
struct Byte {
    shown: u8,
    kept: u8,
    is_dirty: bool,
}

impl Byte {
    const ZERO: Byte = Byte {
        shown: 0,
        kept: 0,
        is_dirty: false,
    };
}

// A file: its bytes, how many of them reads show, and how many the disk has.
#[derive(Drop)]
struct Pages {
    bytes: Vec<Byte>,
    shown: usize,
    kept: usize,
}

impl Pages {
    // With room for so many bytes.
    fn new<R: Abort + AllocGlobal>(rt: &R, room: usize) -> Self {
        Pages {
            bytes: vec![in rt.alloc(); Byte::ZERO; room].expect(rt, "room"),
            shown: 0,
            kept: 0,
        }
    }

    fn read(&self, place: usize, into: &mut [u8]) {
        for (byte, there) in into.iter_mut().zip(self.bytes.iter().skip(place)) {
            *byte = there.shown;
        }
    }

    fn write(&mut self, place: usize, bytes: &[u8]) {
        for (there, byte) in self.bytes.iter_mut().skip(place).zip(bytes) {
            there.shown = *byte;
            there.is_dirty = true;
        }
        self.shown = self.shown.max(place.saturating_add(bytes.len()));
    }

    fn cut(&mut self, len: usize) {
        for byte in self.bytes.iter_mut().skip(len) {
            byte.shown = 0;
            byte.is_dirty = true;
        }
        self.shown = self.shown.min(len);
    }

    // The disk gets what is to be written, unless the sync fails or the power is gone. Nothing is to be written any more.
    fn sync(&mut self, is_written: bool) {
        for byte in self.bytes.iter_mut() {
            if is_written && byte.is_dirty {
                byte.kept = byte.shown;
            }
            byte.is_dirty = false;
        }
        if is_written {
            self.kept = self.shown;
        }
    }

    // Reads show what the disk has.
    fn lose_power(&mut self) {
        for byte in self.bytes.iter_mut() {
            byte.shown = byte.kept;
            byte.is_dirty = false;
        }
        self.shown = self.kept;
    }
}

/// Two such files. The sync with one number fails, and those behind another one reach no disk any more.
#[derive(Drop)]
pub(crate) struct ForgetfulSite {
    a: Pages,
    b: Pages,
    syncs: u64,
    fails_at: u64,
    power_until: u64,
    failures: u64,
    // How many bytes one write had at most.
    longest: usize,
}

impl ForgetfulSite {
    // Empty sides, each with room for so many bytes. No sync fails.
    fn new<R: Abort + AllocGlobal>(rt: &R, room: usize) -> Self {
        ForgetfulSite {
            a: Pages::new(rt, room),
            b: Pages::new(rt, room),
            syncs: 0,
            fails_at: 0,
            power_until: u64::MAX,
            failures: 0,
            longest: 0,
        }
    }

    /// The same, whose side A has these bytes.
    pub(crate) fn with_side<R: Abort + AllocGlobal>(rt: &R, room: usize, side: &[u8]) -> Self {
        let mut site = ForgetfulSite::new(rt, room);
        site.a.write(0, side);
        site
    }

    /// How many bytes of a side reads show.
    pub(crate) fn shown(&self, side: Side) -> usize {
        self.pages(side).shown
    }

    /// How many bytes one write had at most.
    pub(crate) fn longest(&self) -> usize {
        self.longest
    }

    const fn pages(&self, side: Side) -> &Pages {
        match side {
            Side::A => &self.a,
            Side::B => &self.b,
        }
    }

    // Counts a call that failed, and names it.
    fn told(&mut self, is_done: bool, side: Side, call: Call) -> Result<(), DeviceFault>
        ensures { CountsFault self.old.failures self.new.failures side call result }
    {
        if is_done {
            return Ok(());
        }
        self.failures = self.failures.wrapping_add(1);
        Err(DeviceFault { side, call })
    }
}

impl Site for ForgetfulSite {
    ghost use Rattle.std.specs.Prelude.{[], false, None};
    ghost use Rattle.std.proofs.Common.{lit≤};

    const STRIDE: u64 = 1;

    ghost STRIDE = { 1 };

    ghost has_stride = { lit≤ tt };

    ghost bounds_stride = { lit≤ tt };

    ghost honest = { λ _. ⊥ };

    ghost tells = { λ _. ⊥ };

    ghost state = { λ _ _. record { bytes = []; touched = λ _. false; shifted = None } };

    ghost sent = { λ _. [] };

    ghost moment = { λ _. 0 };

    ghost left_since = { λ _ _ _ _. ⊥ };

    ghost failures = { λ f. f.failures };

    ghost may_read = { λ _ honest _. absurd honest };

    ghost are_bytes = { λ _ honest _ _. absurd honest };

    ghost counts_now = { λ _ honest _ _ _ _ _. absurd honest };

    ghost only_now = { λ _ honest _ _ _. absurd honest };

    fn length(&mut self, side: Side) -> Result<u64, DeviceFault> {
        Ok(self.pages(side).shown as u64)
    }

    fn read(&mut self, side: Side, place: u64, into: &mut [u8]) -> Result<(), DeviceFault> {
        self.pages(side).read(place as usize, into);
        Ok(())
    }

    fn write_at(&mut self, side: Side, place: u64, bytes: &[u8]) -> Result<(), DeviceFault> {
        match side {
            Side::A => self.a.write(place as usize, bytes),
            Side::B => self.b.write(place as usize, bytes),
        }
        self.longest = self.longest.max(bytes.len());
        let has_room = self.pages(side).shown <= self.pages(side).bytes.len();
        self.told(has_room, side, Call::Write)
    }

    fn cut(&mut self, side: Side, len: u64) -> Result<(), DeviceFault> {
        match side {
            Side::A => self.a.cut(len as usize),
            Side::B => self.b.cut(len as usize),
        }
        Ok(())
    }

    fn sync(&mut self, side: Side) -> Result<(), DeviceFault> {
        self.syncs = self.syncs.wrapping_add(1);
        let is_done = self.syncs != self.fails_at;
        let is_written = is_done && self.syncs <= self.power_until;
        match side {
            Side::A => self.a.sync(is_written),
            Side::B => self.b.sync(is_written),
        }
        self.told(is_done, side, Call::Sync)
    }

    fn spell(&self, _message: &Message) -> Option<Vec<u8>> {
        None
    }

    fn send(&mut self, _to: NodeId, _number: u64, _message: &Message, _spelled: Option<&[u8]>) {}

    fn ack(&mut self, _to: NodeId, _number: u64) {}

    fn reply(&mut self, _session: u64, _request: u64, _answer: &Answer) {}
}

fn opened<R: Abort + AllocGlobal>(
    rt: &R,
    site: ForgetfulSite,
) -> Result<Flusher<ForgetfulSite>, OpenFault> {
    match Flusher::open(rt.alloc(), site) {
        Ok((engine, core)) => {
            drop(core);
            Ok(engine)
        }
        Err(Back { site, fault }) => {
            drop(site);
            Err(fault)
        }
    }
}

/// What an engine is asked for: to set the flag for a session that never asked, or to move.
#[derive(Clone, Copy)]
pub(crate) enum Act {
    SetFlag(u64),
    Move,
}

/// The site behind an act, and whether that is durable. Before it so many sessions are shown.
pub(crate) fn acted<R: Abort + AllocGlobal>(
    rt: &R,
    site: ForgetfulSite,
    sessions: usize,
    act: Act,
) -> (ForgetfulSite, bool) {
    let mut engine = opened(rt, site).expect(rt, "it is opened");
    assert!(rt; engine.twin().core().sessions().rows().len() == sessions);
    if engine.owes() || !engine.room() {
        panic!(rt; "there is no room");
    }
    let is_done = match act {
        Act::SetFlag(session) => {
            let mut batch = batch_of(rt, engine.twin(), Part::Flag(session));
            let flushed = engine.flush(&mut batch);
            drop(batch);
            flushed.is_ok()
        }
        Act::Move => engine.checkpoint().is_ok(),
    };
    (engine.close(), is_done)
}

// Member 1 of 1, which one session asked. Of an act behind that a gate wasn't synced: two syncs make sure of the sides, one of
// the record or the state, and the fourth fails.
fn without_gate<R: Abort + AllocGlobal>(rt: &R, act: Act) -> ForgetfulSite {
    let site = match format(rt.alloc(), ForgetfulSite::new(rt, 1_024), &MEMBER) {
        Ok(site) => site,
        Err(Back { site, fault }) => {
            drop(site);
            panic!(rt; "formatting fails: {fault}")
        }
    };
    let (mut site, is_done) = acted(rt, site, 0, Act::SetFlag(1));
    assert!(rt; is_done, "the first ask is durable");
    site.fails_at = site.syncs.saturating_add(4);
    let (site, is_done) = acted(rt, site, 1, act);
    assert!(rt; !is_done, "the fourth sync fails");
    site
}

// How many sessions the node has that is opened after a power cut, if one is.
fn after_power_cut<R: Abort + AllocGlobal>(rt: &R, site: ForgetfulSite) -> Option<usize> {
    let mut site = site;
    site.a.lose_power();
    site.b.lose_power();
    site.power_until = u64::MAX;
    let engine = opened(rt, site).ok()?;
    let count = engine.twin().core().sessions().rows().len();
    drop(engine);
    Some(count)
}

fn opened_anew<R: Abort + AllocGlobal>(rt: &R, site: ForgetfulSite) -> ForgetfulSite {
    match open_anew(rt.alloc(), site) {
        Ok((engine, core)) => {
            drop(core);
            engine.close()
        }
        Err(Back { site, fault: _ }) => site,
    }
}

// A third session asks behind the second one's record, whose gate wasn't synced, and the power is cut.
#[test]
fn what_follows_a_gate_that_was_not_synced_is_lost_unless_it_is_written_anew(rt: HostRuntime) {
    for &(is_anew, left) in &[(false, 1), (true, 3)] {
        let mut site = without_gate(&rt, Act::SetFlag(2));
        if is_anew {
            site = opened_anew(&rt, site);
        }
        let (site, is_done) = acted(&rt, site, 2, Act::SetFlag(3));
        assert!(rt; is_done && after_power_cut(&rt, site) == Some(left));
    }
}

// The gate that arms the other side wasn't synced. The power is cut after so many syncs of opening anew, or of moving the node
// as it stands.
fn cut_within<R: Abort + AllocGlobal>(rt: &R, syncs: u64, is_anew: bool) -> Option<usize> {
    let mut site = without_gate(rt, Act::Move);
    site.power_until = site.syncs.saturating_add(syncs);
    if is_anew {
        return after_power_cut(rt, opened_anew(rt, site));
    }
    let (site, is_done) = acted(rt, site, 1, Act::Move);
    assert!(rt; is_done, "it is moved");
    after_power_cut(rt, site)
}

#[test]
fn a_side_whose_arming_was_not_synced_is_armed_again(rt: HostRuntime) {
    let mut lost = 0u64;
    for syncs in 0..12 {
        assert!(rt;
            cut_within(&rt, syncs, true) == Some(1),
            "after {syncs} syncs"
        );
        if cut_within(&rt, syncs, false).is_none() {
            lost = lost.saturating_add(1);
        }
    }
    assert!(rt; lost > 0, "without that both sides are closed for a while");
}
