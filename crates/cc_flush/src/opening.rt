//! What two sides keep is found again.

ghost use Rattle.std.specs.Prelude.{max, ◌≡◌, ◌↔◌, ◌≤◌, OnOk, IfOk, IfErr, MatchResult, ℕ};
ghost use Rattle.cc_site.specs.declared.site.Side.{Side as SideValue};
ghost use Rattle.cc_site.specs.declared.site.Side.TheVariants.{A, B};
ghost use Rattle.cc_site.specs.Moments.{Possible, Nothing};
ghost use Rattle.cc_site.specs.Runs.{Passes, EachMoment};
ghost use Rattle.cc_site.specs.Reads.{OnlyReads, bytes_of};
ghost use Rattle.cc_site.specs.ToldFaults.{LooksAt, LooksAtEither};
ghost use Rattle.cc_checkpoint.specs.declared.open_fault.OpenFault.TheVariants as faults;
ghost use Rattle.cc_checkpoint.specs.Faults.{CountsDevice};
ghost use Rattle.cc_journal.specs.EventReads.{IsScanned};
ghost use Rattle.cc_flush.specs.Engine.{StandsNow};
ghost use Rattle.cc_flush.specs.Openings.{AreSettled, IsFound, IsReadingFault, OpenFails, OpenStops, Opens, RecordsFail, Syncs, of_scan};

use crate::opened::Opened;
use cc_checkpoint::{InUse, OpenFault, Piece, choose, read_state};
use cc_journal::{Journal, ScanFault, Scanned, scan};
use cc_node::Node;
use cc_site::{DeviceFault, Side, Site, length_of};
use std::alloc::Global;

// What two sides hold: the node, where its next record goes, under which generation, how long the side in use is, and what
// counts on it. The piece is the one that the state was read through.
#[derive(Drop)]
pub(crate) struct Found {
    pub node: Node,
    pub journal: Journal,
    pub generation: u64,
    pub used: u64,
    pub opened: Opened,
    pub piece: Piece,
}

// Makes sure of both sides.
fn settle_sides<S: Site>(site: &mut S) -> Result<(), OpenFault>
    ensures honest { S.honest site.old ↔ S.honest site.new }
    ensures tells { (S.tells site.old ↔ S.tells site.new) × (S.sent site.new ≡ S.sent site.old) }
    ensures value { S.honest site.old → OnOk result (AreSettled (S.state site.old) (S.state site.new)) }
    ensures stops { S.honest site.old → IfErr result (OpenStops (S.state site.old) (S.state site.new)) }
    ensures time { S.honest site.old → Passes S.Site site.old site.new Nothing }
    ensures device { IfErr result (λ e. (fault : DeviceFault) × (e ≡ faults.Device fault)) }
    ensures fault { CountsDevice Syncs (S.failures site.old) (S.failures site.new) result }
{
    site.sync(Side::A)?;
    site.sync(Side::B)?;
    Ok(())
}

// A fault of the records of a side, as one of the site.
fn of_scan(side: Side, fault: ScanFault) -> OpenFault
    ensures { result ≡ of_scan side fault }
{
    match fault {
        ScanFault::Damaged(place) => OpenFault::Damaged(side, place),
        ScanFault::Device(fault) => OpenFault::Device(fault),
        ScanFault::NoMemory => OpenFault::NoMemory,
    }
}

// Reads the records of a side from the gate at `first` on.
fn read_records<S: Site>(
    alloc: Global,
    site: &mut S,
    side: Side,
    first: u64,
    node: Node,
) -> Result<Scanned, OpenFault>
    ensures scanned { S.honest site.old → IfOk result (IsScanned (S.state site.old side).bytes side first node) }
    ensures failed { S.honest site.old → IfErr result (λ fault. IsReadingFault fault → RecordsFail side (S.state site.old side).bytes node first fault) }
    ensures reads { OnlyReads S.Site site.old site.new }
    ensures fault { CountsDevice (LooksAt side) (S.failures site.old) (S.failures site.new) result }
{
    match scan(alloc, site, side, first, node) {
        Ok(scanned) => Ok(scanned),
        Err(fault) => Err(of_scan(side, fault)),
    }
}

fn greatest(m: u64, n: u64) -> u64
    ensures { result ≡ max m n }
{
    m.max(n)
}

// Reads what both sides hold, the state through the piece.
fn read_sides<S: Site>(alloc: Global, site: &mut S, piece: Piece) -> Result<Found, OpenFault>
    ensures found { S.honest site.old → IfOk result (λ found. IsFound (bytes_of S.Site site.old) found.node found.journal found.generation found.used
        found.opened) }
    ensures reaches { IfOk result (λ found. found.journal.place ≤ found.used) }
    ensures failed { S.honest site.old → IfErr result (OpenFails (bytes_of S.Site site.old)) }
    ensures reads { OnlyReads S.Site site.old site.new }
    ensures fault { CountsDevice LooksAtEither (S.failures site.old) (S.failures site.new) result }
{
    let mut piece = piece;
    let InUse { side, generation } = choose(site)?;
    let (start, first) = read_state(alloc, site, side, &mut piece)?;
    let Scanned {
        journal,
        node,
        records,
        events,
    } = read_records(alloc, site, side, first, start)?;
    let len = match length_of(site, side) {
        Ok(len) => len,
        Err(fault) => {
            drop(node);
            return Err(OpenFault::Device(fault));
        }
    };
    let used = greatest(len, journal.place());
    let opened = Opened {
        side,
        records,
        events,
    };
    Ok(Found {
        node,
        journal,
        generation,
        used,
        opened,
        piece,
    })
}

// Makes sure of both sides, reserves the piece, and reads what the sides hold. It writes nothing.
pub(crate) fn open_sides<S: Site>(alloc: Global, site: &mut S) -> Result<Found, OpenFault>
    ensures honest { S.honest site.old ↔ S.honest site.new }
    ensures tells { (S.tells site.old ↔ S.tells site.new) × (S.sent site.new ≡ S.sent site.old) }
    ensures found { S.honest site.old → IfOk result (λ found. IsFound (bytes_of S.Site site.old) found.node found.journal found.generation found.used
        found.opened) }
    ensures reaches { IfOk result (λ found. found.journal.place ≤ found.used) }
    ensures failed { S.honest site.old → IfErr result (OpenFails (bytes_of S.Site site.old)) }
    ensures every_moment { S.honest site.old → EachMoment S.Site site.old site.new (Possible (S.state site.old) (S.sent site.old)) }
    ensures settled { S.honest site.old → OnOk result (AreSettled (S.state site.old) (S.state site.new)) }
    ensures stops { S.honest site.old → IfErr result (OpenStops (S.state site.old) (S.state site.new)) }
    ensures same_bytes { S.honest site.old → OnOk result ((side : SideValue) → (S.state site.new side).bytes ≡ (S.state site.old side).bytes) }
    ensures stands { S.honest site.old → IfOk result (λ found. StandsNow (S.state site.new) found.journal found.generation found.node) }
    ensures fault { CountsDevice Opens (S.failures site.old) (S.failures site.new) result }
{
    settle_sides(site)?;
    let piece = Piece::new(alloc)?;
    read_sides(alloc, site, piece)
}
