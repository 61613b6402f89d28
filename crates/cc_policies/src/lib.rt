//! What a server and a client of a node decide, apart from threads, sockets and files.
#![tactic(auto)]

mod admission;
mod bundle;
mod client;
mod frames;
mod greetings;
mod health_table;
mod last_asks;
mod limits;
mod operator_outcome;
mod origin;
mod peer_health;
mod received_frames;
mod response;
mod retirement_check;
mod route;
mod routes;
mod share_change;
mod silence;
mod slow_operation;
mod snapshot_timer;
mod speakers;
mod wishes;
mod withheld;

pub use admission::{
    is_furthest_behind, is_given_up, may_hand_over, what_needs_no_room_makes_no_post,
};
pub use bundle::{Bundle, Parcel};
pub use client::{
    Client, Heard, Stage, Step, a_reading_comes_first, asks_under_one_number,
    number_zero_tells_the_last, refusal_of, refusals_are_told,
};
pub use frames::{
    ack_frame, due_bytes, event_of, message_bytes, refused_frame, reply_bytes, skip_bytes,
};
pub use greetings::{
    Greeted, Greeter, Greetings, Met, PeerGreeting, Recipient, answer_to, greeter_after,
    greetings_are_remembered, is_old_copy, met_by, why_unwelcome,
};
pub use health_table::{HealthTable, Passed, PeerRow, lapses_are_of_absent_peers};
pub use last_asks::LastAsks;
pub use limits::{
    CHECKPOINT_BYTES, CHECKPOINT_GROWTH_BYTES, CLIENT_WRITE_MS, LAST_ANSWER_SECONDS,
    OPERATOR_ANSWER_SECONDS, PEER_ANSWER_MS, REASON_SECONDS, STATUS_SECONDS, WRITE_BYTES,
};
pub use operator_outcome::{
    Lefts, Objection, Outcome, Retirement, a_retirement_is_told, objection_frame,
    objections_are_told, outcome_of, probe_frame, second_request_is_left,
};
pub use origin::{Access, Admitted, Origin, may_speak, speaker_of, who_speaks_has_greeted};
pub use peer_health::{PeerHealth, none_lapses_but_absent, who_keeps_up_stays};
pub use received_frames::{Ending, Input, ReceivedFrames};
pub use response::{Duty, heed};
pub use retirement_check::objection_to;
pub use route::Route;
pub use routes::{Routes, answers_follow_asks};
pub use share_change::{a_share_is_told, share_outcome_of};
pub use silence::is_silent;
pub use slow_operation::{AskName, SlowOperation};
pub use snapshot_timer::{Calls, snapshots_keep_apart};
pub use speakers::{Speaker, Speakers, Spoken};
pub use wishes::Wishes;
pub use withheld::{Due, Withheld};
