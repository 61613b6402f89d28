//! The two sides of a node's disk, and the outlet through which it answers: the disk model, that of a crash included, which
//! is this project's own; a disk in memory; and two files of a folder as such a disk.
#![tactic(auto)]

mod disk;
mod durable;
mod file_site;
mod flushed;
mod fuse;
mod gate;
mod image;
mod memory;
mod outlet;
mod places;
mod reads;
mod site;
mod site_fault;
mod steps;

pub use durable::{cut_durably, write_durably};
pub use file_site::{FileSite, file_name};
pub use flushed::Flushed;
pub use fuse::Failing;
pub use gate::{CLOSED_GATE, OPEN_GATE};
pub use image::Choice;
pub use memory::MemorySite;
pub use outlet::{NoOutlet, Outlet};
pub use places::{read_whole, write_whole};
pub use reads::{fill_buffer, length_of, read_into};
pub use site::{Call, DeviceFault, STRIDE_LIMIT, Side, Site};
pub use site_fault::SiteFault;
