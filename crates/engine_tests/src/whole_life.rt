//! A whole life of a node on its site, of which each disk call fails in turn: formatting, opening, four batches, with a
//! lapse and a snapshot among their events, posts that are put again, and two checkpoints.

use crate::parts::{Part, first_of, settle};
use crate::puts::{Kind, Put, are_put};
use crate::sites::{MEMBER, empty, node_of};
use crate::steps::{Step, are_left, carry_out, state_of_node};
use cc_checkpoint::OpenFault;
use cc_flush::{Back, CheckpointFault, Failed, Flusher, FormatFault, format};
use cc_site::{DeviceFault, Failing, MemorySite};
use std::process::Abort;
use std::test::*;

// What is done with an engine, and how many events that takes in.
const STEPS: [(Step, usize); 7] = [
    (Step::Turn(Part::Ask), 1),
    (Step::Turn(Part::Deliveries), 2),
    (Step::Resend, 0),
    (Step::Checkpoint, 0),
    (Step::Turn(Part::Collect), 1),
    (Step::Turn(Part::Away), 2),
    (Step::Checkpoint, 0),
];

// How far a life has come: how many events were released, how many were begun, and the disk call that ended it.
#[derive(Clone, Copy)]
struct Lived {
    durable: usize,
    taken: usize,
    ended: Option<DeviceFault>,
}

// Lives on an engine. Where a disk call ends the life, each later step comes to the same.
fn live<R: Abort + AllocGlobal>(rt: &R, flusher: &mut Flusher<MemorySite>) -> Lived {
    let mut durable: usize = 0;
    for &(step, events) in &STEPS {
        let taken = durable.saturating_add(events);
        let came = carry_out(rt, flusher, step);
        if let Err(CheckpointFault::Failed(Failed { fault })) = came {
            for &later in &[Step::Turn(Part::Leave), Step::Resend, Step::Checkpoint] {
                let told = carry_out(rt, flusher, later);
                assert!(rt; told == came, "a later call tells something else");
            }
            return Lived {
                durable,
                taken,
                ended: Some(fault),
            };
        }
        durable = taken;
    }
    Lived {
        durable,
        taken: durable,
        ended: None,
    }
}

// Opens a site and lives on it, unless a disk call of the opening fails.
fn open_and_live<R: Abort + AllocGlobal>(rt: &R, site: MemorySite) -> (MemorySite, Lived) {
    match Flusher::open(rt.alloc(), site) {
        Ok((mut flusher, core)) => {
            drop(core);
            let lived = live(rt, &mut flusher);
            (flusher.close(), lived)
        }
        Err(Back { site, fault }) => {
            let ended = match fault {
                OpenFault::Device(fault) => Some(fault),
                _ => None,
            };
            let lived = Lived {
                durable: 0,
                taken: 0,
                ended,
            };
            (site, lived)
        }
    }
}

// Formats a site for member 1 of 1. Else it gives the disk call that failed, if one did.
fn formatted<R: AllocGlobal>(rt: &R, site: MemorySite) -> Result<MemorySite, Option<DeviceFault>> {
    match format(rt.alloc(), site, &MEMBER) {
        Ok(site) => Ok(site),
        Err(Back { site, fault }) => {
            drop(site);
            match fault {
                FormatFault::Device(fault) => Err(Some(fault)),
                _ => Err(None),
            }
        }
    }
}

// The events of the life: the first ones of these parts, each made of what the node keeps by then.
const EVENTS: [Part; 6] = [
    Part::Ask,
    Part::Own(1),
    Part::Own(2),
    Part::Collect,
    Part::Away,
    Part::Snapshot,
];

// The states of the node before the first event and after each.
fn plain_states<R: Abort + AllocGlobal>(rt: &R) -> Vec<Vec<u8>> {
    let mut node = node_of(rt, &MEMBER);
    let mut states = Vec::new(rt.alloc());
    states.push(state_of_node(rt, &node)).expect(rt, "room");
    for &part in &EVENTS {
        let event = first_of(rt, &node, part);
        settle(rt, &mut node, event);
        states.push(state_of_node(rt, &node)).expect(rt, "room");
    }
    drop(node);
    states
}

// All that the life puts: of the four batches, and both posts of the first two again before the third.
const PUTS: [Put; 9] = [
    Put::Send(1, 1, Kind::Store),
    Put::Ack(1, 1),
    Put::Send(1, 2, Kind::StoreAck),
    Put::Ack(1, 2),
    Put::Reply(7, 1, true),
    Put::Send(1, 1, Kind::Store),
    Put::Send(1, 2, Kind::StoreAck),
    Put::Send(1, 3, Kind::Query),
    Put::Send(1, 4, Kind::Snapshot),
];

// Whether the outputs are the first ones of the life, and a crash leaves the node after so many events that the released ones
// are among them, and none that wasn't begun.
fn is_lawful<R: Abort + AllocGlobal>(
    rt: &R,
    site: &MemorySite,
    lived: Lived,
    states: &[Vec<u8>],
) -> bool {
    let outputs = site.outputs();
    match (
        PUTS.get(..outputs.len()),
        states.get(lived.durable..=lived.taken),
    ) {
        (Some(puts), Some(lawful)) => are_put(outputs, puts) && are_left(rt, site, lawful),
        _ => false,
    }
}

// The disk call that ended a life in which the one of that number was to fail.
fn ended_at<R: Abort + AllocGlobal>(
    rt: &R,
    at: u64,
    failing: Failing,
    states: &[Vec<u8>],
) -> Option<DeviceFault> {
    let mut site = empty(rt, 16);
    site.fuse(at, failing);
    let site = match formatted(rt, site) {
        Ok(site) => site,
        Err(fault) => return fault,
    };
    let (site, lived) = open_and_live(rt, site);
    let is_lawful = is_lawful(rt, &site, lived, states);
    drop(site);
    assert!(rt; is_lawful, "an output or a crash is not of this life");
    lived.ended
}

// The 72 disk calls of the life, in turn: 16 format the site, 14 open it, each batch has 4, and each checkpoint has 13. The
// last word stands for a life in which none fails.
const CALLS: &str = "\
A Length, B Length, B Length, B Cut, B Sync, B Write, B Sync, A Length, A Cut, A Sync, A Write, A Sync, \
A Write, A Sync, A Write, A Sync, \
A Sync, B Sync, A Length, A Read, A Read, B Length, B Read, A Length, A Read, A Read, A Read, A Length, A Read, \
A Length, \
A Write, A Sync, A Write, A Sync, \
A Write, A Sync, A Write, A Sync, \
B Length, B Read, B Cut, B Write, B Write, B Write, B Sync, B Write, B Sync, A Write, A Sync, A Cut, A Sync, \
B Write, B Sync, B Write, B Sync, \
B Write, B Sync, B Write, B Sync, \
A Length, A Read, A Cut, A Write, A Write, A Write, A Sync, A Write, A Sync, B Write, B Sync, B Cut, B Sync, \
none";

// Puts the name of a disk call that ended a life behind those of others.
fn put_name<R: Abort + AllocGlobal>(rt: &R, names: &mut String, ended: Option<DeviceFault>) {
    let name = match ended {
        Some(fault) => format!(in rt.alloc(); "{fault}, "),
        None => format!(in rt.alloc(); "none"),
    };
    let name = name.expect(rt, "a name");
    names.push_str(&name).expect(rt, "room");
}

// Each of them fails once, and for good.
#[test]
fn each_call_of_a_whole_life_may_fail(rt: HostRuntime) {
    let states = plain_states(&rt);
    for &failing in &[Failing::Once, Failing::Stop] {
        let mut names = String::new(rt.alloc());
        for at in 0..73 {
            put_name(&rt, &mut names, ended_at(&rt, at, failing, &states));
        }
        assert!(rt; names.as_str() == CALLS);
    }
}
