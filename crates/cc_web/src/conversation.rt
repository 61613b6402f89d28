//! What answers the requests of one connection over HTTP.

use crate::line::Line;
use crate::service::WebService;
use bytes::Bytes;
use http::{HeaderName, HeaderValue, Request};
use http_server::{Response, Service};
use std::alloc::AllocError;
use std::sync::Wait;
use std::time::Clock;

/// What answers the requests of one connection. Where an answer may still come that is too late, the response is the last one.
#[derive(Drop)]
pub struct Conversation<'a, R> {
    pub service: WebService<'a, Line<'a, R>>,
    /// Whether a request was answered since this was looked at last.
    pub has_answered: bool,
}

impl<'a, R: Wait + Clock> Service for Conversation<'a, R> {
    ghost use Rattle.std.specs.Prelude.{◌≡◌, ⊤};
    ghost use Rattle.cc_web.specs.LastResponse.{Closes};
    ghost use Rattle.cc_web.specs.Services.{Answers};

    ghost answers = { λ old request response new. Closes
        (λ answer after. (after.settings ≡ old.service.settings)
        × Answers (λ _ _ _. ⊤) old.service.settings old.service.asking request answer after.asking)
        response new.service };

    fn call(
        &mut self,
        request: &Request<Bytes>,
        response: &mut Response,
    ) -> Result<(), AllocError> {
        self.service.call(request, response)?;
        self.has_answered = true;
        if self.service.asking.is_over() {
            let name = HeaderName::from_static("connection");
            let _ = response.add_header(name, HeaderValue::from_static("close"));
        }
        Ok(())
    }
}
