//! The outputs of durable events are put to the site.

ghost use Rattle.std.specs.Prelude.{◌≡◌, ◌≤◌, ◌∷◌, [], Some, map, option_map, IfSome};
ghost use Rattle.std.specs.FinMap as table;
ghost use Rattle.cc_links.specs.Links.{LinksWithin};
ghost use Rattle.cc_wire.specs.Messages.{message_spelling};
ghost use Rattle.cc_node.specs.Core.{send_ack, send_post, send_replies, outputs};
ghost use Rattle.cc_node.specs.Node.{step};
ghost use Rattle.cc_journal.specs.Batches.{AreLawful};
ghost use Rattle.cc_journal.specs.Outlet.{Puts, request_of, new_post, kept_reply, kept_replies, on_link};

use crate::entry::Entry;
use arrayvec::ArrayVec;
use cc_links::LinkRow;
use cc_messages::Message;
use cc_node::{Core, LinkAck, Made, Node};
use cc_ops::Replies;
use cc_outbox::Outbox;
use cc_site::Site;

// Which request of its session an event answers. The answer is kept in the outbox.
#[derive(Clone, Copy, Default)]
struct Answered {
    session: u64,
    request: u64,
}

// Takes an accepted event into the node, and puts its outputs: the acknowledgement, the post on each live link by
// ascending peer, the replies.
pub(crate) fn put_entry<S: Site>(node: &mut Node, site: &mut S, entry: Entry)
    requires { AreLawful node.old (entry ∷ []) }
    ensures node { node.new ≡ step node.old entry.event }
    ensures puts { Puts S.Site (outputs node.old.core entry.event) site.old site.new }
{
    let Entry { event, made } = entry;
    let ack = made.ack;
    let answered = answered_by(&made);
    let posts = node.core().posts();
    node.settle(event, made);
    put_ack(site, ack);
    put_post(site, node, posts);
    put_replies(site, node.outbox(), &answered);
}

// Which requests it answers, in the order of the answers.
fn answered_by(made: &Made) -> ArrayVec<Answered, { Replies::MAX_LEN }>
    ensures { result.items ≡ map request_of made.now.answers }
{
    let mut answered = ArrayVec::new();
    for reply in made.answers.as_slice() {
        answered.push(Answered {
            session: reply.session,
            request: reply.request,
        });
    }
    answered
}

fn put_ack<S: Site>(site: &mut S, ack: Option<LinkAck>)
    ensures { Puts S.Site (send_ack ack) site.old site.new }
{
    if let Some(ack) = ack {
        site.ack(ack.to, ack.number);
    }
}

// Puts the last post on each live link, where the node has made more posts than so many.
fn put_post<S: Site>(site: &mut S, node: &Node, before: u64)
    ensures { Puts S.Site (send_post node.now.core (new_post before node.now)) site.old site.new }
{
    if let Some(post) = new_post(node, before) {
        put_on_links(site, node.core(), post);
    }
}

// The last post, where there are more than so many. None too for a post that no live link needed, which isn't kept.
fn new_post(node: &Node, before: u64) -> Option<&Message>
    ensures { option_map (λ m. m.now) result ≡ new_post before node.now }
{
    let posts = node.core().posts();
    if before < posts {
        node.outbox().post(posts)
    } else {
        None
    }
}

fn put_on_links<S: Site>(site: &mut S, core: &Core, post: &Message)
    requires { LinksWithin core.now.posts core.now.links }
    ensures { Puts S.Site (send_post core.now (Some post.now)) site.old site.new }
{
    let spelled = site.spell(post);
    let rows = core.links().rows();
    for row in rows {
        put_on_link(site, core, row, post, spelled.as_deref());
    }
}

// Puts the last post on a link, unless its peer has left.
fn put_on_link<S: Site>(
    site: &mut S,
    core: &Core,
    row: &LinkRow,
    post: &Message,
    spelled: Option<&[u8]>,
)
    requires started { row.now.start ≤ core.now.posts }
    requires spelled { IfSome spelled (λ bytes. bytes.now ≡ message_spelling post.now) }
    ensures { Puts S.Site (on_link core.now post.now row.now) site.old site.new }
{
    if !core.churn().has_left(row.peer) {
        site.send(row.peer, core.posts() - row.start, post, spelled);
    }
}

fn put_replies<S: Site>(site: &mut S, outbox: &Outbox, requests: &[Answered])
    ensures { Puts S.Site (send_replies (kept_replies requests.now outbox.now)) site.old site.new }
{
    for answered in requests {
        put_reply(site, outbox, answered);
    }
}

fn put_reply<S: Site>(site: &mut S, outbox: &Outbox, answered: &Answered)
    ensures { Puts S.Site (send_replies (kept_reply answered.now (table.get outbox.now.answers answered.now.session))) site.old site.new }
{
    if let Some(answer) = outbox.answer(answered.session) {
        site.reply(answered.session, answered.request, answer);
    }
}
