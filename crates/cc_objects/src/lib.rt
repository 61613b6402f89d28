//! The simple objects over a view: a max register, an abort flag and a set.
#![tactic(auto)]

mod reads;
mod set_full;
mod writes;

pub use reads::{flag_of, max_of, set_of};
pub use set_full::SetFull;
pub use writes::{add_member, set_flag, write_max, write_text};
