//! How many asks may begin together, which the operator may change.

ghost use Rattle.std.specs.Prelude.{◌≡◌, ◌<◌, [], ◌∷◌, length};
ghost use Rattle.cc_messages.specs.Refusals.{first_of, decided};
ghost use Rattle.cc_messages.specs.Shares.{IsAskShare};
ghost use Rattle.cc_ops.specs.Ops as ops;
ghost use Rattle.cc_ops.specs.Refusals.{same_share, busy_beyond};

use crate::ops::Ops;
use cc_messages::{Refusal, Share};

impl Ops {
    /// Why the share can't become `share`, if it can't: it is that already, or more asks are pending.
    pub fn decide_share(&self, share: Share) -> Result<(), Refusal>
        ensures exact { result ≡ decided (first_of (same_share share self.now ∷ busy_beyond share self.now ∷ [])) }
        ensures range { IsAskShare share }
    {
        let asks = usize::from(share.asks());
        if self.share == asks {
            return Err(Refusal::NothingToAck);
        }
        if self.pending_len() > asks {
            return Err(Refusal::Busy);
        }
        Ok(())
    }

    // How many asks the pending round has.
    fn pending_len(&self) -> usize
        ensures { result ≡ length (ops.pending self.now) }
    {
        usize::from(!self.is_idle()) + self.others.asks().len()
    }

    /// From the next round on so many asks may begin together. It takes no memory.
    pub fn set_share(&mut self, share: Share)
        requires { length self.old.others < share }
        ensures { self.new ≡ ops.with_share share self.old }
    {
        self.share = usize::from(share.asks());
    }
}
