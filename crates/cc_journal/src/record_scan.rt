//! The records of a side are read again, from a gate on.

ghost use Rattle.std.specs.Prelude.{◌≡◌, ◌≤◌, ◌<◌, ◌+◌, length, take, drop, vec_len, OnOk, IfOk, IfErr, MatchBool};
ghost use Rattle.cc_journal.specs.declared.record_scan.ScanFault.TheVariants as faults;
ghost use Rattle.cc_journal.specs.Scans.{NoRecord};
ghost use Rattle.cc_journal.specs.EventReads.{RecordLeads, BodyStands, NoBody, BeginsOpen, BeginsClosed, IsScanned, IsStopped, IfDamaged, CountsScanFault};
ghost use Rattle.cc_site.specs.declared.site.Call.TheVariants.{Read};
ghost use Rattle.cc_site.specs.Moments.{CountsFault};
ghost use Rattle.cc_site.specs.Reads.{OnlyReads};

use crate::batch::Batch;
use crate::events::take_events;
use crate::journal::Journal;
use cc_node::Node;
use cc_site::{DeviceFault, OPEN_GATE, Side, Site, fill_buffer, length_of, read_into};
use cc_views::NoMemory;
use std::alloc::{AllocError, Global};

/// What the records of a side hold.
#[derive(Drop)]
pub struct Scanned {
    /// Where the next record goes: behind the closed gate that ends the records.
    pub journal: Journal,
    /// The node that they lead to.
    pub node: Node,
    /// How many records there are, and how many events in them.
    pub records: u64,
    pub events: u64,
}

/// Why the records of a side can't be read.
#[derive(Clone, Copy, Debug, PartialEq, Eq)]
pub enum ScanFault {
    /// What stands at this place, in bytes from the start of the side, isn't what has to stand there: behind an open gate
    /// the length of a record whose events the node takes, and behind a record a gate.
    Damaged(u64),
    /// A disk call failed.
    Device(DeviceFault),
    /// A growth was refused.
    NoMemory,
}

impl From<DeviceFault> for ScanFault {
    ghost from_gives = { λ fault scan_fault. scan_fault ≡ faults.Device fault };

    fn from(fault: DeviceFault) -> Self {
        ScanFault::Device(fault)
    }
}

impl From<NoMemory> for ScanFault {
    ghost from_gives = { λ _ fault. fault ≡ faults.NoMemory };

    fn from(_e: NoMemory) -> Self {
        ScanFault::NoMemory
    }
}

impl From<AllocError> for ScanFault {
    ghost from_gives = { λ _ fault. fault ≡ faults.NoMemory };

    fn from(_e: AllocError) -> Self {
        ScanFault::NoMemory
    }
}

// How many bytes a record has, and how many events.
#[derive(Clone, Copy)]
struct Taken {
    size: u64,
    events: u64,
}

// Whether the gate at a place is open.
fn gate_is_open<S: Site>(site: &mut S, side: Side, place: u64) -> Result<bool, DeviceFault>
    requires { S.honest site.old → place < length (S.state site.old side).bytes }
    ensures value { S.honest site.old → IfOk result (λ is_open. MatchBool is_open (BeginsOpen (drop place (S.state site.old side).bytes))
        (BeginsClosed (drop place (S.state site.old side).bytes))) }
    ensures reads { OnlyReads S.Site site.old site.new }
    ensures fault { CountsFault (S.failures site.old) (S.failures site.new) side Read result }
{
    let mut gate = [0];
    read_into(site, side, place, &mut gate)?;
    Ok(gate[0] == OPEN_GATE)
}

// Reads what stands behind the length of the record at a place, of a side that is so long.
fn read_body<S: Site>(
    site: &mut S,
    side: Side,
    place: u64,
    len: u64,
    body: &mut Vec<u8>,
) -> Result<(), ScanFault>
    requires within { place ≤ len }
    requires len { S.honest site.old → len ≡ length (S.state site.old side).bytes }
    ensures found { S.honest site.old → OnOk result (BodyStands (drop place (S.state site.old side).bytes) body.new.items) }
    ensures damaged { S.honest site.old → IfErr result (IfDamaged (λ p. (p ≡ place) × NoBody (drop place (S.state site.old side).bytes))) }
    ensures within { OnOk result (place + 4 + vec_len body.new ≤ len) }
    ensures reads { OnlyReads S.Site site.old site.new }
    ensures fault { CountsScanFault side (S.failures site.old) (S.failures site.new) result }
{
    if len - place < 4 {
        return Err(ScanFault::Damaged(place));
    }
    let mut number = [0; 4];
    read_into(site, side, place, &mut number)?;
    let size = u32::from_be_bytes(number);
    if size as usize > Batch::MAX_BYTES {
        return Err(ScanFault::Damaged(place));
    }
    if len - place - 4 < u64::from(size) {
        return Err(ScanFault::Damaged(place));
    }
    body.resize(size as usize, 0)?;
    fill_buffer(site, side, place + 4, body)?;
    Ok(())
}

// Reads the record at a place, of a side that is so long, and takes its events in.
fn read_record<S: Site>(
    alloc: Global,
    site: &mut S,
    side: Side,
    place: u64,
    len: u64,
    body: &mut Vec<u8>,
    node: &mut Node,
) -> Result<Taken, ScanFault>
    requires within { place ≤ len }
    requires len { S.honest site.old → len ≡ length (S.state site.old side).bytes }
    ensures found { S.honest site.old → IfOk result (λ taken. RecordLeads (drop place (S.state site.old side).bytes) node.old node.new taken.size
        taken.events) }
    ensures damaged { S.honest site.old → IfErr result (IfDamaged (λ p. (p ≡ place) × NoRecord (drop place (S.state site.old side).bytes) node.old)) }
    ensures within { IfOk result (λ taken. place + taken.size ≤ len) }
    ensures few { IfOk result (λ taken. taken.events ≤ taken.size) }
    ensures reads { OnlyReads S.Site site.old site.new }
    ensures fault { CountsScanFault side (S.failures site.old) (S.failures site.new) result }
{
    read_body(site, side, place, len, body)?;
    let Some(events) = take_events(alloc, node, body)? else {
        return Err(ScanFault::Damaged(place));
    };
    Ok(Taken {
        size: 4 + body.len() as u64,
        events,
    })
}

// Where the records end, how many there are, and how many events in them.
#[derive(Drop)]
struct Ended {
    journal: Journal,
    records: u64,
    events: u64,
}

// Reads the records from the gate at `place` on, and takes their events into a node that the caller owns.
fn scan_into<S: Site>(
    alloc: Global,
    site: &mut S,
    side: Side,
    place: u64,
    node: &mut Node,
) -> Result<Ended, ScanFault>
    ensures scanned { S.honest site.old → IfOk result (λ e. IsScanned (S.state site.old side).bytes side place node.old
        (record { journal = e.journal; node = node.new; records = e.records; events = e.events })) }
    ensures damaged { S.honest site.old → IfErr result (IfDamaged (IsStopped (S.state site.old side).bytes place node.old)) }
    ensures reads { OnlyReads S.Site site.old site.new }
    ensures fault { CountsScanFault side (S.failures site.old) (S.failures site.new) result }
{
    let len = length_of(site, side)?;
    let mut body = Vec::with_capacity(alloc, Batch::MAX_BYTES)?;
    scan_records(alloc, site, side, place, len, &mut body, node)
}

// The same over a side of known length, through a buffer that holds any record.
fn scan_records<S: Site>(
    alloc: Global,
    site: &mut S,
    side: Side,
    place: u64,
    len: u64,
    body: &mut Vec<u8>,
    node: &mut Node,
) -> Result<Ended, ScanFault>
    requires len { S.honest site.old → len ≡ length (S.state site.old side).bytes }
    ensures scanned { S.honest site.old → IfOk result (λ e. IsScanned (S.state site.old side).bytes side place node.old
        (record { journal = e.journal; node = node.new; records = e.records; events = e.events })) }
    ensures damaged { S.honest site.old → IfErr result (IfDamaged (IsStopped (S.state site.old side).bytes place node.old)) }
    ensures reads { OnlyReads S.Site site.old site.new }
    ensures fault { CountsScanFault side (S.failures site.old) (S.failures site.new) result }
{
    let mut place = place;
    let mut records = 0;
    let mut events = 0;
    while place < len {
        if !gate_is_open(site, side, place)? {
            let journal = Journal::new(alloc, side, place)?;
            return Ok(Ended {
                journal,
                records,
                events,
            });
        }
        let taken = read_record(alloc, site, side, place + 1, len, body, node)?;
        place += 1 + taken.size;
        records += 1;
        events += taken.events;
    }
    Err(ScanFault::Damaged(place))
}

/// Reads the records of a side from the gate at `place` on, in bytes from 0, and takes their events in, up to a closed
/// gate. Damaged where no gate or no record stands that has to, Device where a disk call failed, and NoMemory
/// where a growth was refused; then the node is given up.
pub fn scan<S: Site>(
    alloc: Global,
    site: &mut S,
    side: Side,
    place: u64,
    node: Node,
) -> Result<Scanned, ScanFault>
    ensures scanned { S.honest site.old → IfOk result (IsScanned (S.state site.old side).bytes side place node) }
    ensures damaged { S.honest site.old → IfErr result (IfDamaged (IsStopped (S.state site.old side).bytes place node)) }
    ensures reads { OnlyReads S.Site site.old site.new }
    ensures fault { CountsScanFault side (S.failures site.old) (S.failures site.new) result }
{
    let mut node = node;
    let Ended {
        journal,
        records,
        events,
    } = match scan_into(alloc, site, side, place, &mut node) {
        Ok(ended) => ended,
        Err(fault) => {
            drop(node);
            return Err(fault);
        }
    };
    Ok(Scanned {
        journal,
        node,
        records,
        events,
    })
}
