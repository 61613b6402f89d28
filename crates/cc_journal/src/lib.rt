//! Batches of events, the records that make them durable, each behind a gate, and what they put out then.
#![tactic(auto)]

mod ahead;
mod batch;
mod entry;
mod events;
mod journal;
mod laws;
mod outlet;
mod record;
mod record_scan;

pub use ahead::{ROOM_LIMIT, zeros_ahead};
pub use batch::Batch;
pub use entry::Entry;
pub use journal::{Flight, Forfeit, Journal, Landed};
pub use laws::scans_once;
pub use record_scan::{ScanFault, Scanned, scan};
