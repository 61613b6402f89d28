//! What a request is answered with.

ghost use Rattle.std.specs.Prelude.{◌≡◌, IfOk};
ghost use Rattle.cc_web.specs.Replies.{reply_of, own_reply, last_reply_of, head_of, HasBody};

use crate::asked::Asked;
use crate::changes::{change_response, no_change_response};
use crate::place::Place;
use crate::problem::Problem;
use crate::response::{
    WebResponse, answer_response, last_request_response, overview_response, preflight_response,
    problem_response,
};
use crate::round::is_behind;
use cc_messages::{Answer, Refusal};
use cc_views::{NoMemory, View};
use std::alloc::Global;

/// What a request is answered with.
#[derive(Drop)]
pub enum Reply {
    /// What there is.
    Overview {
        is_html: bool,
    },
    /// What a page of the allowed origin may do at a place.
    Preflight(Place),
    /// An answer; of a snapshot with how many collects it took.
    Answer {
        answer: Answer,
        collects: Option<u64>,
    },
    /// A view, as an event.
    Changed(View),
    /// No event.
    Unchanged,
    /// The last request of a session.
    LastRequest {
        session: u64,
        last: u64,
    },
    /// Why there is no answer.
    Problem(Problem),
}

impl Reply {
    /// The reply to an ask that became this.
    pub fn of(became: Asked, is_write: bool) -> Reply
        ensures { result ≡ reply_of is_write became }
    {
        match became {
            Asked::Answered(answer) => Reply::Answer {
                answer,
                collects: None,
            },
            Asked::Refused(why) => Reply::Problem(Problem::Refused(why)),
            Asked::Late => Reply::Problem(Problem::Late { is_write }),
        }
    }

    /// The reply to an ask under a session of the node's own. None: no session is free.
    pub fn of_own(became: Option<Asked>, is_write: bool) -> Reply
        ensures { result ≡ own_reply is_write became }
    {
        let Some(became) = became else {
            return Reply::Problem(Problem::NoSession);
        };
        if is_behind(&became) {
            return Reply::Problem(Problem::NoSession);
        }
        Reply::of(became, is_write)
    }

    /// The reply to an ask under number 0 of a session, which is refused with its last request.
    pub fn of_last(session: u64, became: Asked) -> Reply
        ensures { result ≡ last_reply_of session became }
    {
        match became {
            Asked::Refused(Refusal::Stale(last)) => Reply::LastRequest { session, last },
            became => Reply::of(became, false),
        }
    }

    /// The response that gives it. The only error is a refused growth.
    pub fn response(&self, alloc: Global) -> Result<WebResponse, NoMemory>
        ensures head { IfOk result (λ r. r.head ≡ head_of self.now) }
        ensures body { IfOk result (λ r. HasBody self.now r.body.items) }
    {
        match self {
            Reply::Overview { is_html } => overview_response(alloc, *is_html),
            Reply::Preflight(place) => Ok(preflight_response(alloc, *place)),
            Reply::Answer { answer, collects } => answer_response(alloc, answer, *collects),
            Reply::Changed(view) => change_response(alloc, view),
            Reply::Unchanged => no_change_response(alloc),
            Reply::LastRequest { session, last } => last_request_response(alloc, *session, *last),
            Reply::Problem(problem) => problem_response(alloc, *problem),
        }
    }
}
