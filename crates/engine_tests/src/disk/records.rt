//! Records and gates.

ghost use Rattle.cc_journal.specs.Batches.{AreLawful};

use crate::openings::ENTERED;
use crate::sites::{ENTRANT, has, node_of, two_sides};
use cc_journal::{Batch, Entry, Journal, ScanFault, scan};
use cc_messages::Event;
use cc_node::Node;
use cc_site::{Call, DeviceFault, Failing, Side, Site};
use std::process::Abort;

// Writes a batch, opens its gate, and puts what its events make of the node. Whether it landed.
fn lands<S: Site>(journal: &mut Journal, site: &mut S, node: &mut Node, batch: &mut Batch) -> bool
    requires { AreLawful node.old batch.old }
{
    let Ok(length) = site.length(journal.side()) else {
        return false;
    };
    if length <= journal.place() || journal.place() >= 1 << 61 || batch.len() == 0 {
        return false;
    }
    let Ok(flight) = journal.write(site, batch, length) else {
        return false;
    };
    let Ok(landed) = journal.append(site, flight) else {
        return false;
    };
    landed.put_outputs(batch, node, site);
    batch.len() == 0
}

/// The same of a batch of one event.
pub(crate) fn takes<R: Abort + AllocGlobal, S: Site>(
    rt: &R,
    journal: &mut Journal,
    site: &mut S,
    node: &mut Node,
    event: Event,
) -> bool {
    let entry = Entry::of(rt.alloc(), node.core(), event).expect(rt, "an entry");
    let mut batch = Batch::of_one(entry);
    let lands = lands(journal, site, node, &mut batch);
    drop(batch);
    lands
}

// The place of a journal, and how many records and events lead to it.
type Counts = (u64, u64, u64);

/// What a scan finds: the side of the journal, those counts, and how many posts its node has made.
pub(crate) type Found = (Side, Counts, u64);

/// Whether a scan of a site comes to that.
pub(crate) fn comes_to<R: Abort + AllocGlobal, S: Site>(
    rt: &R,
    site: &mut S,
    wanted: Result<Found, ScanFault>,
) -> bool {
    let node = node_of(rt, &ENTRANT);
    match scan(rt.alloc(), site, Side::A, 0, node) {
        Ok(scanned) => {
            let counts = (scanned.journal.place(), scanned.records, scanned.events);
            let found = (scanned.journal.side(), counts, scanned.node.core().posts());
            drop(scanned);
            wanted == Ok(found)
        }
        Err(fault) => wanted == Err(fault),
    }
}

// An Enter behind a closed gate and then a Leave end at their places, and a side has the record of the first before the
// second comes.
#[test]
fn a_record_stands_behind_its_open_gate(rt: HostRuntime) {
    let mut site = two_sides(&rt, &[0], &[]);
    let mut journal = Journal::new(rt.alloc(), Side::A, 0).expect(&rt, "a journal");
    let mut node = node_of(&rt, &ENTRANT);
    assert!(rt; takes(&rt, &mut journal, &mut site, &mut node, Event::Enter));
    assert!(rt; journal.place() == 11);
    assert!(rt; has(&rt, &mut site, Side::A, &ENTERED));
    assert!(rt; takes(&rt, &mut journal, &mut site, &mut node, Event::Leave));
    assert!(rt; journal.place() == 22);
    drop((site, journal, node));
}

// What a scan finds of these bytes, or why it stops.
const SCANS: [(&[u8], Result<Found, ScanFault>); 9] = [
    // One record, two, and one of two events, up to a closed gate.
    (&ENTERED, Ok((Side::A, (11, 1, 1), 1))),
    (
        &[
            0xA5, 0, 0, 0, 6, 1, 0, 0, 0, 1, 1, 0xA5, 0, 0, 0, 6, 1, 0, 0, 0, 1, 2, 0xFF, 0xA5,
        ],
        Ok((Side::A, (22, 2, 2), 2)),
    ),
    (
        &[0xA5, 0, 0, 0, 11, 2, 0, 0, 0, 1, 1, 0, 0, 0, 1, 2, 0],
        Ok((Side::A, (16, 1, 2), 2)),
    ),
    // What stands behind a closed gate is not read.
    (
        &[0, 0xA5, 0, 0, 0, 6, 1, 0, 0, 0, 1, 1, 0xA5],
        Ok((Side::A, (0, 0, 0), 0)),
    ),
    // No gate, and none behind a record.
    (&[], Err(ScanFault::Damaged(0))),
    (
        &[0xA5, 0, 0, 0, 6, 1, 0, 0, 0, 1, 1],
        Err(ScanFault::Damaged(11)),
    ),
    // A record that is cut off, and one of 65 events.
    (
        &[0xA5, 0, 0, 0, 6, 1, 0, 0, 0, 1],
        Err(ScanFault::Damaged(1)),
    ),
    (
        &[0xA5, 0, 0, 0, 6, 65, 0, 0, 0, 1, 1, 0],
        Err(ScanFault::Damaged(1)),
    ),
    // A node enters once.
    (
        &[
            0xA5, 0, 0, 0, 6, 1, 0, 0, 0, 1, 1, 0xA5, 0, 0, 0, 6, 1, 0, 0, 0, 1, 1, 0,
        ],
        Err(ScanFault::Damaged(12)),
    ),
];

// A call of the scan that fails is told: the calls 0 to 3 made the sides, 4 is the length, 5 the gate, and 6 the record's
// length.
#[test]
fn records_are_read_up_to_a_closed_gate_or_damage(rt: HostRuntime) {
    for &(bytes, wanted) in &SCANS {
        let mut site = two_sides(&rt, bytes, &[]);
        let is_found = comes_to(&rt, &mut site, wanted);
        drop(site);
        assert!(rt; is_found);
    }
    for &(at, call) in &[(4, Call::Length), (5, Call::Read), (6, Call::Read)] {
        let mut site = two_sides(&rt, &ENTERED, &[]);
        site.fuse(at, Failing::Once);
        let side = Side::A;
        let fault = ScanFault::Device(DeviceFault { side, call });
        let is_told = comes_to(&rt, &mut site, Err(fault));
        drop(site);
        assert!(rt; is_told, "{at}");
    }
}
