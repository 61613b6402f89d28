//! The service of a connection over HTTP.

ghost use Rattle.std.specs.Prelude.{◌≡◌, List, OnOk, option_map};
ghost use Rattle.std.specs.Option.{option_copied};
ghost use Rattle.cc_web.specs.Services.{Answers, Handles, Gives, Sends, order_in};
ghost use Rattle.cc_web.specs.Steps.{Step, Leads};

use crate::conduct::carry_out;
use crate::fault::WebFault;
use crate::http_request::{origin_in, web_request};
use crate::http_response::put_response;
use crate::node_access::NodeAccess;
use crate::order::{WebOrder, order_of};
use crate::problem::Problem;
use crate::reply::Reply;
use crate::request::{WebRequest, WebSettings};
use bytes::Bytes;
use cc_views::NoMemory;
use http::{HeaderValue, Request, StatusCode};
use http_server::{Response, Service};
use std::alloc::{AllocError, Global};

/// What answers the requests of a connection: a node, as a request sees it, and what the node was told of its clients.
#[derive(Drop)]
pub struct WebService<'a, A> {
    pub asking: A,
    pub settings: WebSettings<'a>,
    pub alloc: Global,
}

impl<'a, A: NodeAccess> Service for WebService<'a, A> {
    ghost answers = { λ old request response new. (new.settings ≡ old.settings)
        × Answers A.does old.settings old.asking request response new.asking };

    fn call(
        &mut self,
        request: &Request<Bytes>,
        response: &mut Response,
    ) -> Result<(), AllocError> {
        let reply = handle(&mut self.asking, &self.settings, web_request(request));
        let origin = origin_in(&self.settings, request);
        send(self.alloc, &reply, origin, response);
        Ok(())
    }
}

// Does what a request asks for, and says what it is answered with.
fn handle<A: NodeAccess>(
    asking: &mut A,
    settings: &WebSettings<'_>,
    read: Result<WebRequest<'_>, WebFault>,
) -> Reply
    ensures { (steps : List Step) × Leads A.does asking.old steps asking.new
        × Handles (order_in settings.now read.entry) steps result }
{
    match order_in(settings, read) {
        Ok(order) => carry_out(asking, &order),
        Err(why) => Reply::Problem(Problem::Fault(why)),
    }
}

fn order_in(
    settings: &WebSettings<'_>,
    read: Result<WebRequest<'_>, WebFault>,
) -> Result<WebOrder, WebFault>
    ensures { result ≡ order_in settings.now read.entry }
{
    match read {
        Ok(request) => order_of(settings, &request),
        Err(why) => Err(why),
    }
}

// Makes the response the one that gives a reply, or says that something is wrong where memory runs out.
fn send(alloc: Global, reply: &Reply, origin: Option<&HeaderValue>, response: &mut Response)
    ensures { Sends (option_map (λ v. v.bytes) (option_copied origin.entry)) reply.now response.new }
{
    match give(alloc, reply, origin, response) {
        Ok(()) => return,
        Err(_) => {}
    }
    response.clear();
    response.status = StatusCode::INTERNAL_SERVER_ERROR;
}

fn give(
    alloc: Global,
    reply: &Reply,
    origin: Option<&HeaderValue>,
    response: &mut Response,
) -> Result<(), AllocError>
    ensures { OnOk result (Gives (option_map (λ v. v.bytes) (option_copied origin.entry)) reply.now response.new) }
{
    match reply.response(alloc) {
        Ok(decided) => put_response(decided, origin, response),
        Err(NoMemory) => Err(AllocError),
    }
}
