//! Clients over HTTP: what a request orders, which response an answer is, and which of the node's own sessions serves it,
//! without sockets; what a request asks its node, step by step; and the listener that serves connections.
#![tactic(auto)]

mod asked;
mod body;
mod call;
mod changes;
mod conduct;
mod conversation;
mod desk;
mod fault;
mod follow;
mod http_request;
mod http_response;
mod json;
mod key;
mod line;
mod listener;
mod node_access;
mod order;
mod order_laws;
mod origin;
mod overview;
mod own_laws;
mod own_sessions;
mod place;
mod problem;
mod reply;
mod request;
mod response;
mod retry;
mod round;
mod service;
mod snapshot;
mod status;
mod timed_stream;
mod timeout;
mod trial;
mod words;

pub use asked::Asked;
pub use call::{Call, Write};
pub use changes::{change_response, is_news, no_change_response, stores_in};
pub use conduct::carry_out;
pub use fault::WebFault;
pub use follow::follow_changes;
pub use http_request::{origin_in, web_request};
pub use http_response::put_response;
pub use key::AskKey;
pub use listener::{Gateway, end_web, listen, serve_web};
pub use node_access::NodeAccess;
pub use order::{Task, WebOrder, order_of};
pub use order_laws::{
    keys_are_the_clients, other_pages_change_nothing, safe_methods_change_nothing,
    times_are_bounded,
};
pub use own_laws::{a_key_has_one_ask, a_session_has_one_request_at_a_time};
pub use own_sessions::{Fate, OwnSession, OwnSessions};
pub use place::Place;
pub use problem::Problem;
pub use reply::Reply;
pub use request::{WebRequest, WebSettings};
pub use response::{
    COMMON_FIELDS, Form, ORIGIN_FIELDS, WebField, WebHead, WebResponse, answer_response,
    last_request_response, overview_response, preflight_response, problem_response,
};
pub use retry::{Next, PAUSE_MS, after_refusal};
pub use round::{ask_own, ask_round};
pub use service::WebService;
pub use snapshot::take_snapshot;
pub use status::Status;
pub use timeout::{MOST_TIMEOUT_MS, USUAL_TIMEOUT_MS};
pub use trial::{ask_under, fate_of};
