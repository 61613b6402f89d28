//! What stands in a node is put to the site again.

ghost use Rattle.std.specs.Prelude.{◌≡◌, ◌≤◌, nat_lt, length, IfSome};
ghost use Rattle.std.specs.FinMap as table;
ghost use Rattle.cc_wire.specs.Messages.{message_spelling};
ghost use Rattle.cc_journal.specs.Outlet.{Puts};
ghost use Rattle.cc_flush.specs.Resends.{resend_row, resend_post, resends, reply_again, ack_again};
ghost use Rattle.cc_links.specs.Links.{heard_from};

use cc_links::LinkRow;
use cc_messages::Message;
use cc_node::{Core, Node};
use cc_site::Site;
use cc_views::NodeId;

/// Puts each kept post on each live link that waits for it, by ascending number and then by ascending peer. How many
/// outputs those are.
pub(crate) fn put_kept_posts<S: Site>(node: &Node, site: &mut S) -> u64
    ensures count { result ≡ length (resends node.now) }
    ensures puts { Puts S.Site (resends node.now) site.old site.new }
{
    let outbox = node.outbox();
    let last = outbox.last();
    let dropped = last - outbox.post_count() as u64;
    let mut count = 0;
    for number in dropped..last {
        let post = outbox.post(number + 1).unwrap();
        count += put_kept_post(node.core(), site, number + 1, post);
    }
    count
}

fn put_kept_post<S: Site>(core: &Core, site: &mut S, number: u64, post: &Message) -> u64
    ensures count { result ≡ length (resend_post core.now (number, post.now)) }
    ensures few { result ≤ 256 }
    ensures puts { Puts S.Site (resend_post core.now (number, post.now)) site.old site.new }
{
    let spelled = site.spell(post);
    let rows = core.links().rows();
    let mut count = 0;
    for row in rows {
        count += put_on_waiting_link(core, site, row, number, post, spelled.as_deref());
    }
    count
}

// Puts a post on a link, unless its peer has left, isn't sent the post or has acknowledged it. How many outputs that is.
fn put_on_waiting_link<S: Site>(
    core: &Core,
    site: &mut S,
    row: &LinkRow,
    number: u64,
    post: &Message,
    spelled: Option<&[u8]>,
) -> u64
    requires { IfSome spelled (λ bytes. bytes.now ≡ message_spelling post.now) }
    ensures count { result ≡ length (resend_row core.now (number, post.now) row.now) }
    ensures one { result ≤ 1 }
    ensures puts { Puts S.Site (resend_row core.now (number, post.now) row.now) site.old site.new }
{
    if core.churn().has_left(row.peer) {
        return 0;
    }
    let Some(wire) = row.wire_number(number) else {
        return 0;
    };
    if wire <= row.acked {
        return 0;
    }
    site.send(row.peer, wire, post, spelled);
    1
}

/// Puts the kept answer of a session under its last request. Whether there is one.
pub(crate) fn put_kept_answer<S: Site>(node: &Node, site: &mut S, session: u64) -> bool
    ensures kept { result ≡ table.contains_key node.now.outbox.answers session }
    ensures puts { Puts S.Site (reply_again session node.now) site.old site.new }
{
    let Some(request) = node.core().sessions().finish(session) else {
        return false;
    };
    let Some(answer) = node.outbox().answer(session) else {
        return false;
    };
    site.reply(session, request, answer);
    true
}

/// Puts the acknowledgement of what was heard last from a peer. Whether anything was.
pub(crate) fn put_ack_again<S: Site>(node: &Node, site: &mut S, peer: NodeId) -> bool
    ensures heard { result ≡ nat_lt 0 (heard_from peer node.now.core.links) }
    ensures puts { Puts S.Site (ack_again peer node.now) site.old site.new }
{
    let heard = node.heard(peer);
    if heard == 0 {
        return false;
    }
    site.ack(peer, heard);
    true
}
