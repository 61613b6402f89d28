//! Laws of the node's own sessions, over all that requests take and give back. Each function has an empty body, and its
//! contract is the law.

ghost use Rattle.std.specs.Prelude.{◌≡◌, List};
ghost use Rattle.cc_web.specs.OwnHistories.{TakenOnceAtATime, NeverTakenAgain, IsOut};
ghost use Rattle.cc_web.specs.OwnSessions.{Takes};
ghost use Rattle.cc_web.specs.declared.key.AskKey.{AskKey};
ghost use Rattle.cc_web.specs.declared.own_sessions.OwnSession.{OwnSession};

/// Until a request gives its key back, no other request is given its session.
pub fn a_session_has_one_request_at_a_time()
    ensures taken { TakenOnceAtATime }
    ensures out { (rows new : List OwnSession) (key : AskKey) → Takes rows key new → IsOut new key }
{}

/// A key under which an ask may stand, or that its session is past, is never given to another request.
pub fn a_key_has_one_ask()
    ensures { NeverTakenAgain }
{}
