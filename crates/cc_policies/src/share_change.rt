//! What the operator's request for another share came to.

ghost use Rattle.std.specs.Prelude.{◌≡◌, ℕ, Some, None};
ghost use Rattle.cc_messages.specs.declared.event.Event.TheVariants as event;
ghost use Rattle.cc_messages.specs.declared.refusal.Refusal.{Refusal};
ghost use Rattle.cc_node.specs.Core.{Core};
ghost use Rattle.cc_node.specs.Refusals.{decides};
ghost use Rattle.cc_policies.specs.Clients.{refusal_told};
ghost use Rattle.cc_policies.specs.ShareChanges.{share_outcome_told, share_outcome_in, share_outcome_along, shares_told};
ghost use Rattle.cc_policies.specs.declared.operator_outcome.Outcome.TheVariants as outcome;

use crate::client::refusal_of;
use crate::operator_outcome::Outcome;
use cc_connections::Frame;
use cc_messages::Refusal;

/// What a frame that comes back tells of the operator's request for another share. None where it is about something else.
///
/// A node answers the operator only where it refuses. So the request is sent twice over one connection: where the first
/// is accepted, the second is refused as NothingToAck, and where the first is refused, that comes back first.
pub fn share_outcome_of(frame: &Frame) -> Option<Outcome>
    ensures { result ≡ share_outcome_in frame.now }
{
    match frame {
        Frame::Refused {
            session: 0,
            request: 0,
            refusal,
            value,
        } => share_outcome_told(refusal_of(*refusal, *value)),
        _ => None,
    }
}

fn share_outcome_told(refusal: Option<Refusal>) -> Option<Outcome>
    ensures { result ≡ share_outcome_told refusal }
{
    match refusal? {
        Refusal::NothingToAck => Some(Outcome::Done),
        refusal => Some(Outcome::Refused(refusal)),
    }
}

/// Of a share that is told twice, a node tells what the operator takes for the outcome: that the share is that one where it
/// takes the request, and else what a refusal of it says.
pub fn a_share_is_told()
    ensures taken { (c : Core) (share : ℕ) → decides c (event.Share share) ≡ None
        → share_outcome_along (shares_told c share) ≡ Some outcome.Done }
    ensures refused { (c : Core) (share : ℕ) (why : Refusal) → decides c (event.Share share) ≡ Some why
        → share_outcome_along (shares_told c share) ≡ share_outcome_told (Some why) }
{}
