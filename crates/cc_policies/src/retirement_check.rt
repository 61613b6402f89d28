//! Which retirements the server of a node doesn't hand to it.

ghost use Rattle.std.specs.Prelude.{◌≡◌};
ghost use Rattle.cc_policies.specs.RetirementChecks.{objection_to};

use crate::operator_outcome::Objection;
use cc_views::NodeId;

/// Why the node `me` isn't told that `node` is retired, if there is a reason: it is `me`, or it has to be silent, and isn't.
pub fn objection_to(
    me: NodeId,
    node: NodeId,
    has_to_be_silent: bool,
    is_silent: bool,
) -> Option<Objection>
    ensures { result ≡ objection_to me node has_to_be_silent is_silent }
{
    if node == me {
        return Some(Objection::Itself);
    }
    if has_to_be_silent && !is_silent {
        return Some(Objection::Alive);
    }
    None
}
