//! Calls round each accept and each sync, by which a test sees how they fall together.

use cc_messages::{Answer, Message};
use cc_site::{DeviceFault, Side, Site};
use cc_views::NodeId;

/// Calls round each accept of a worker, and round each sync of a site.
pub trait Hooks {
    fn before_accept(&self);

    fn after_accept(&self);

    fn before_sync(&self);

    fn after_sync(&self);
}

/// Hooks behind a reference.
impl<H: Hooks> Hooks for &H {
    fn before_accept(&self) {
        (**self).before_accept();
    }

    fn after_accept(&self) {
        (**self).after_accept();
    }

    fn before_sync(&self) {
        (**self).before_sync();
    }

    fn after_sync(&self) {
        (**self).after_sync();
    }
}

/// Hooks that do nothing.
#[derive(Clone, Copy, Default, PartialEq, Eq)]
pub struct NoHooks;

impl Hooks for NoHooks {
    fn before_accept(&self) {}

    fn after_accept(&self) {}

    fn before_sync(&self) {}

    fn after_sync(&self) {}
}

/// The site that it wraps, with hooks that are called round each sync.
#[derive(Drop)]
pub struct Hooked<S: Site, H: Hooks> {
    pub site: S,
    pub hooks: H,
}

impl<S: Site, H: Hooks> Site for Hooked<S, H> {
    const STRIDE: u64 = S::STRIDE;

    ghost STRIDE = { S.STRIDE };

    ghost has_stride = { S.has_stride };

    ghost bounds_stride = { S.bounds_stride };

    ghost honest = { λ g. S.honest g.site };

    ghost tells = { λ g. S.tells g.site };

    ghost state = { λ g. S.state g.site };

    ghost sent = { λ g. S.sent g.site };

    ghost moment = { λ g. S.moment g.site };

    ghost left_since = { λ g. S.left_since g.site };

    ghost failures = { λ g. S.failures g.site };

    ghost may_read = { λ g. S.may_read g.site };

    ghost are_bytes = { λ g. S.are_bytes g.site };

    ghost counts_now = { λ g. S.counts_now g.site };

    ghost only_now = { λ g. S.only_now g.site };

    fn length(&mut self, side: Side) -> Result<u64, DeviceFault> {
        self.site.length(side)
    }

    fn read(&mut self, side: Side, place: u64, into: &mut [u8]) -> Result<(), DeviceFault> {
        self.site.read(side, place, into)
    }

    fn write_at(&mut self, side: Side, place: u64, bytes: &[u8]) -> Result<(), DeviceFault> {
        self.site.write_at(side, place, bytes)
    }

    fn cut(&mut self, side: Side, len: u64) -> Result<(), DeviceFault> {
        self.site.cut(side, len)
    }

    fn sync(&mut self, side: Side) -> Result<(), DeviceFault> {
        self.hooks.before_sync();
        let synced = self.site.sync(side);
        self.hooks.after_sync();
        synced
    }

    fn spell(&self, message: &Message) -> Option<Vec<u8>> {
        self.site.spell(message)
    }

    fn send(&mut self, to: NodeId, number: u64, message: &Message, spelled: Option<&[u8]>) {
        self.site.send(to, number, message, spelled);
    }

    fn ack(&mut self, to: NodeId, number: u64) {
        self.site.ack(to, number);
    }

    fn reply(&mut self, session: u64, request: u64, answer: &Answer) {
        self.site.reply(session, request, answer);
    }
}
