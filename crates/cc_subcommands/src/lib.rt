//! What each command of the program does and prints: a script over clusters in memory, a folder that is formatted or dumped,
//! and what is asked of running nodes.
#![tactic(auto)]

mod cluster;
mod delivery;
mod exit_status;
mod folder;
mod folder_dump;
mod folder_format;
mod folder_identity;
mod format_order;
mod lines;
mod load_run;
mod lost;
mod machinery;
mod network;
mod node_fault;
mod node_lines;
mod opening_fault;
mod owner;
mod play_fault;
mod play_script;
mod player;
mod runtime;
mod script;
mod sent;
mod station;
mod statuses;
mod streams;
mod trouble;
mod warning;

pub use cluster::{Cluster, Played};
pub use delivery::Delivery;
pub use folder::{dump, format, print_lost, print_trouble, random_number, wait_for_folder};
pub use folder_dump::{DumpScope, dump_folder, dump_site};
pub use folder_format::{format_folder, format_site};
pub use folder_identity::{IdentityError, identity_of_folder};
pub use format_order::FormatOrder;
pub use lines::Lines;
pub use load_run::load;
pub use lost::Lost;
pub use machinery::Machinery;
pub use network::{ask, leave, retire, share, status};
pub use node_fault::NodeFault;
pub use opening_fault::BadOpening;
pub use owner::node_in_folder;
pub use play_fault::PlayFault;
pub use play_script::play_input;
pub use player::play;
pub use runtime::NotingRuntime;
pub use script::{Line, parse};
pub use station::{Outcome, Resend, Station};
pub use statuses::{BAD_COMMAND_LINE, FAULT, print_unreadable, print_word_fault};
pub use streams::StandIns;
pub use trouble::{Trouble, Wrong};
pub use warning::Warning;
