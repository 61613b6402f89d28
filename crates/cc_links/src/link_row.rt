ghost use Rattle.std.specs.Prelude.{◌≡◌, Some};
ghost use Rattle.cc_links.specs.Links.{wire_number_on};
ghost use Rattle.cc_links.specs.Rows.{link_of};

use cc_views::NodeId;

/// The link to one peer. Post number n of the node goes to the peer under the number n - `start`, so that
/// the numbers of each link begin at 1.
#[derive(Clone, Copy, PartialEq, Eq)]
pub struct LinkRow {
    pub peer: NodeId,

    /// How many posts the node had made when it got to know the peer.
    pub start: u64,

    /// The last number on this link that the peer has acknowledged, 0 for none.
    pub acked: u64,

    /// The last number that the peer has sent and that was taken in, 0 for none.
    pub heard: u64,
}

impl LinkRow {
    /// The number under which post `n` goes over the link. None where it isn't sent there: the node got to know the peer
    /// after that post.
    pub fn wire_number(&self, n: u64) -> Option<u64>
        ensures { result ≡ wire_number_on n (Some (link_of self.now)) }
    {
        if self.start < n {
            Some(n - self.start)
        } else {
            None
        }
    }
}
