//! The events of a record.

ghost use Rattle.std.specs.Prelude.{◌≡◌, List, IfOk, MatchOption, MatchBool};
ghost use Rattle.cc_messages.specs.declared.event.Event.{Event};
ghost use Rattle.cc_wire.specs.Events.{SpellsEvent};
ghost use Rattle.cc_node.specs.Node.{after, IsLawful};
ghost use Rattle.cc_journal.specs.EventReads.{SpellsEvents, BeginsWith, NoEvent, BytesLead, LeadNowhere};

use crate::batch::Batch;
use cc_messages::{Event, Refusal};
use cc_node::Node;
use cc_views::NoMemory;
use cc_wire::{WireFault, decode_event};
use std::alloc::Global;

// An event behind its size, and how many bytes both have.
#[derive(Drop)]
struct SizedEvent {
    event: Event,
    size: usize,
}

// The event that the bytes spell, where they spell one.
fn spelled_event(alloc: Global, bytes: &[u8]) -> Result<Option<Event>, NoMemory>
    ensures { IfOk result (λ found. MatchOption found ((e : Event) → SpellsEvent bytes.now e → ⊥) (λ e. SpellsEvent bytes.now e)) }
{
    match decode_event(alloc, bytes) {
        Ok(event) => Ok(Some(event)),
        Err(WireFault::NoMemory) => Err(NoMemory),
        Err(_) => Ok(None),
    }
}

// The event that stands behind its size at the front.
fn first_event(alloc: Global, bytes: &[u8]) -> Result<Option<SizedEvent>, NoMemory>
    ensures { IfOk result (λ found. MatchOption found (NoEvent bytes.now) (λ f. BeginsWith bytes.now f.event f.size)) }
{
    let [a, b, c, d, rest @ ..] = bytes else {
        return Ok(None);
    };
    let size = u32::from_be_bytes([*a, *b, *c, *d]) as usize;
    if rest.len() < size {
        return Ok(None);
    }
    let Some(event) = spelled_event(alloc, &rest[..size])? else {
        return Ok(None);
    };
    Ok(Some(SizedEvent {
        event,
        size: 4 + size,
    }))
}

// The events behind a record's length, where the bytes spell some.
fn read_events(alloc: Global, bytes: &[u8]) -> Result<Option<Vec<Event>>, NoMemory>
    ensures { IfOk result (λ found. MatchOption found ((events : List Event) → SpellsEvents bytes.now events → ⊥) (λ v. SpellsEvents bytes.now v.items)) }
{
    let [count, ..] = bytes else {
        return Ok(None);
    };
    if *count == 0 || usize::from(*count) > Batch::MAX_ENTRIES {
        return Ok(None);
    }
    let mut events = Vec::new(alloc);
    let mut place = 1;
    for _ in 0..*count {
        let Some(SizedEvent { event, size }) = first_event(alloc, &bytes[place..])? else {
            return Ok(None);
        };
        events.push(event)?;
        place += size;
    }
    if place < bytes.len() {
        return Ok(None);
    }
    Ok(Some(events))
}

// Takes in the events, one after the other, up to the first that is refused. Whether none was.
fn settle_all(alloc: Global, node: &mut Node, events: Vec<Event>) -> Result<bool, NoMemory>
    ensures { IfOk result (λ all. MatchBool all (IsLawful node.old events.items × (node.new ≡ after node.old events.items))
        (IsLawful node.old events.items → ⊥)) }
{
    for event in events {
        match node.core().made_or_refused(alloc, &event) {
            Ok(made) => node.settle(event, made),
            Err(refusal) => {
                drop(event);
                return match refusal {
                    Refusal::NoMemory => Err(NoMemory),
                    _ => Ok(false),
                };
            }
        }
    }
    Ok(true)
}

// Takes in the events that the bytes spell, and answers how many they are. None where the bytes spell none, or one is
// refused, and then it is unspecified how many were taken in.
pub(crate) fn take_events(
    alloc: Global,
    node: &mut Node,
    bytes: &[u8],
) -> Result<Option<u64>, NoMemory>
    ensures { IfOk result (λ taken. MatchOption taken (LeadNowhere bytes.now node.old) (λ count. BytesLead bytes.now node.old node.new count)) }
{
    let Some(events) = read_events(alloc, bytes)? else {
        return Ok(None);
    };
    let count = events.len() as u64;
    if settle_all(alloc, node, events)? {
        Ok(Some(count))
    } else {
        Ok(None)
    }
}
