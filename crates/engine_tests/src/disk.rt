//! The crates of the disk: sites in memory and of files, records and states.

mod checkpoints;
mod files;
mod memory_sites;
mod records;
mod shared_states;
mod side_choice;
mod states;
mod strides;
mod windows;
