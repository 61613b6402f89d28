//! The bytes of a batch.

ghost use Rattle.std.specs.Prelude.{◌≡◌, ◌≤◌, ◌<◌, ◌∷◌, [], ◌++◌, ◌+◌, length, replicate};
ghost use Rattle.std.specs.List.{flat_map, AllByRecursion};
ghost use Rattle.std.specs.Vec.{vec_capacity};
ghost use Rattle.cc_wire.specs.Events.{IsEvent};
ghost use Rattle.cc_node_state.specs.Sides.{SpellsRecord, record_spelling, sized_spelling, record_limit};
ghost use Rattle.cc_journal.specs.Batches.{events_in, batch_bytes};
ghost use Rattle.cc_journal.specs.Journals.{record_room};

use crate::batch::Batch;
use crate::entry::Entry;
use cc_site::CLOSED_GATE;
use cc_wire::{encode_event, event_len, put_u8, put_u32};

// Puts the record of a batch, and a closed gate behind it, in place of what was there.
pub(crate) fn put_record(text: &mut Vec<u8>, batch: &Batch)
    requires some { 1 ≤ length batch.now }
    requires room { record_room ≤ vec_capacity text.old }
    ensures bytes { text.new.items ≡ batch_bytes batch.now }
    ensures spelled { SpellsRecord (record_spelling (events_in batch.now)) (events_in batch.now) }
    ensures grows { vec_capacity text.old ≤ vec_capacity text.new }
{
    text.clear();
    put_u32(text, batch.size() as u32).unwrap();
    put_u8(text, batch.len() as u8).unwrap();
    put_events(text, batch.entries());
    put_u8(text, CLOSED_GATE).unwrap();
}

// Appends so many zeros, each of which is a closed gate.
pub(crate) fn put_zeros(text: &mut Vec<u8>, count: u64)
    requires room { length text.old.items + count ≤ vec_capacity text.old }
    ensures bytes { text.new.items ≡ text.old.items ++ replicate count 0 }
    ensures grows { vec_capacity text.old ≤ vec_capacity text.new }
{
    let len = text.len() + count as usize;
    text.resize(len, CLOSED_GATE).unwrap();
}

// Appends the events, each behind its size.
fn put_events(text: &mut Vec<u8>, entries: &[Entry])
    requires room { length text.old.items + length (flat_map sized_spelling (events_in entries.now)) ≤ vec_capacity text.old }
    ensures bytes { text.new.items ≡ text.old.items ++ flat_map sized_spelling (events_in entries.now) }
    ensures spelled { AllByRecursion IsEvent (events_in entries.now) }
    ensures grows { vec_capacity text.old ≤ vec_capacity text.new }
{
    for entry in entries {
        let event = &entry.event;
        put_u32(text, event_len(event) as u32).unwrap();
        encode_event(event, text).unwrap();
    }
}
