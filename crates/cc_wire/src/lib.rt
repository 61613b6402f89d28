//! How values, views, messages, commands, answers and events are spelled as bytes. All formats are this project's own:
//! numbers are big-endian, and each value has one spelling.
#![tactic(auto)]

mod answer;
mod ascending_set;
mod changes_bytes;
mod command;
mod event;
mod fault;
mod message;
mod number_list;
mod reader;
mod sizes;
mod spellable;
mod spelling_lengths;
mod values;
mod view_bytes;
mod writer;

pub use answer::{decode_answer, encode_answer, one_spelling_of_answers, put_answer};
pub use cc_messages::{Answer, Command, Event, Message, NumberList, Output, Refusal};
pub use changes_bytes::{put_changes, put_id};
pub use command::{decode_command, encode_command, one_spelling_of_commands};
pub use event::{
    decode_event, encode_event, one_spelling_of_events, put_asked, put_delivery, put_numbered,
    put_place, put_share, put_skip,
};
pub use fault::WireFault;
pub use message::{decode_message, encode_message, one_spelling_of_messages, put_message};
pub use reader::Reader;
pub use sizes::largest_sizes;
pub use spellable::{
    answer_is_spellable, changes_are_spellable, command_is_spellable, event_is_spellable,
    id_is_spellable, message_is_spellable, value_is_spellable, view_is_spellable,
};
pub use spelling_lengths::{
    answer_len, changes_len, command_len, event_len, message_len, value_len, view_len,
};
pub use view_bytes::{decode_view, encode_view, one_spelling_of_views};
pub use writer::{put_u8, put_u16, put_u32, put_u64, put_value, put_view, settled};
