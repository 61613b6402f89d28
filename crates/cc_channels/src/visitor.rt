//! A node that greets.

use crate::notes::{Notice, give_notice};
use crate::shared::Shared;
use cc_connections::{Address, Hello, Reason};
use cc_policies::{Greeted, is_old_copy};
use cc_views::NodeId;
use log::Log;
use std::net::SocketAddr;
use std::sync::Wait;

/// Where a node greets another from, and where it found that.
#[derive(Drop)]
pub struct Visitor<'a> {
    /// The node that is greeted, and where it listens.
    pub me: NodeId,
    pub at: Address,
    pub from: SocketAddr,
    pub shared: &'a Shared,
}

impl Visitor<'_> {
    /// Notes what is made of a greeting. Up to which number the posts of the node were taken in that greets. None where that one says
    /// that it has heard more than was ever posted to it: then the folder of this one may be an old copy, and the peer of that id is
    /// greeted at its own address before anything is taken.
    pub fn note<R: Wait + Log>(&self, rt: &R, hello: &Hello, greeted: Greeted) -> Option<u64> {
        match greeted {
            Greeted::Welcome => self.shared.reception.take(rt, hello.from),
            Greeted::Doubled => self.double(rt, hello.from),
            Greeted::Unwelcome(reason) => {
                self.refuse(rt, hello, reason);
                return Some(0);
            }
        }
        let Some(channel) = self.shared.channel_to(hello.from) else {
            return Some(0);
        };
        channel.put_unwelcome(rt, None);
        if is_old_copy(hello.heard, channel.marks().posted()) {
            channel.suspect(self.shared.seconds());
            return None;
        }
        Some(channel.marks().heard())
    }

    // Notes that two processes greet in turn as a node, unless that was noted.
    fn double<R: Wait + Log>(&self, rt: &R, node: NodeId) {
        if self.shared.reception.double(rt, node) {
            let notice = Notice::Doubled(node, self.from);
            give_notice(rt, self.me, &notice);
        }
    }

    // Notes that the node isn't taken that greets, unless that was noted.
    fn refuse<R: Wait + Log>(&self, rt: &R, hello: &Hello, reason: Reason) {
        if let Some(channel) = self.shared.channel_to(hello.from) {
            channel.put_unwelcome(rt, Some(reason));
        }
        if self.shared.reception.refuse(rt, hello.from, reason) {
            let notice = Notice::Unwelcome {
                node: hello.from,
                from: self.from,
                at: self.at,
                reason,
            };
            give_notice(rt, self.me, &notice);
        }
    }
}
