//! Which connections are open, and over which one each session asked last.

ghost use Rattle.std.specs.Prelude.{◌≡◌, ◌≢◌, ◌≤◌, ◌<◌, ◌+◌, ◌==◌, ℕ, Some, IsTrue, IfOk, IfSome, IsSome, not, filter, find, length, vec_len, if◌then◌else◌};
ghost use Rattle.std.specs.List.{AllByRecursion};
ghost use Rattle.std.specs.Bool.{then_some};
ghost use Rattle.std.specs.Vec.{vec_capacity};
ghost use Rattle.cc_policies.specs.Routes.{Routing, no_routing, is_open, is_ask, connection_in, connection_of, admitted, entered, may_route, routed};
ghost use Rattle.cc_policies.specs.Routes.{is_passed, taken, taken_back, ticket_of, ended, closed, connection_limit, connection_limit_for};

use crate::origin::{Access, Admitted, Origin};
use crate::route::Route;
use cc_views::NoMemory;
use std::alloc::Global;
use std::marker::Model;

/// The open connections by their tickets, and for each session the one over which it asked last. Once made it takes no
/// memory.
#[derive(Drop)]
pub struct Routes {
    connections: Vec<u64>,
    spare: Vec<u64>,
    // Newest first.
    routes: Vec<Route>,
    issued: u64,
    asked: u64,
}

impl Model for Routes {
    ghost use Rattle.std.specs.Vec.{vec_capacity};
    ghost use Rattle.cc_policies.specs.Routes.{Routing, IsRouting};

    ghost Value = { Routing };

    ghost view = { λ r. record { connections = r.connections.items; spare = r.spare.items; routes = r.routes.items; issued = r.issued; asked = r.asked } };

    ghost invariant = { λ r. IsRouting (record {
      connections = r.connections.items;
      spare = r.spare.items;
      routes = r.routes.items;
      issued = r.issued;
      asked = r.asked;
    }) (vec_capacity r.connections) (vec_capacity r.spare) (vec_capacity r.routes) };
}

impl Routes {
    /// How many connections are open at most, but for those of the operator.
    pub const MAX_CONNECTIONS: usize = 1024;

    /// How many of them come from other machines.
    pub const MAX_REMOTE: usize = 1016;

    /// How many of them come from addresses that aren't those of peers, or over the port for clients.
    pub const MAX_STRANGERS: usize = 768;

    /// How many connections there are beside them at most, for the operator's requests.
    pub const MAX_SPARE: usize = 8;

    /// How many routes there are at most: one for each session of a node, and one more for each connection.
    pub const MAX_ROUTES: usize = 1280;

    /// No connection. NoMemory where a growth was refused.
    pub fn new(alloc: Global) -> Result<Self, NoMemory>
        ensures { IfOk result (λ r. r ≡ no_routing) }
    {
        Ok(Routes {
            connections: Vec::with_capacity(alloc, Self::MAX_CONNECTIONS)?,
            spare: Vec::with_capacity(alloc, Self::MAX_SPARE)?,
            routes: Vec::with_capacity(alloc, Self::MAX_ROUTES)?,
            issued: 0,
            asked: 0,
        })
    }

    /// One more connection from there that may bring so much, with a ticket from 1 on. 1,024 may be open, of which 256 are
    /// kept for the addresses of peers, and 8 of these for this machine; what comes over the port for clients has none of
    /// these. Beside them 8 more may be that could bring the operator's requests, and these alone. None where there are so
    /// many.
    pub fn enter(&mut self, from: Origin, access: Access) -> Option<Admitted>
        ensures admitted { result ≡ admitted from access self.old }
        ensures routes { self.new ≡ entered from access self.old }
    {
        let ticket = self.issued.checked_add(1)?;
        if self.connections.len() < Self::connection_limit(from) {
            self.connections.push(ticket).unwrap();
            self.issued = ticket;
            return Some(Admitted { ticket, access });
        }
        if !access.operators || self.spare.len() >= Self::MAX_SPARE {
            return None;
        }
        self.spare.push(ticket).unwrap();
        self.issued = ticket;
        Some(Admitted {
            ticket,
            access: Access {
                asks: false,
                nodes: false,
                operators: true,
            },
        })
    }

    // How many connections may be open beside one more.
    fn connection_limit(from: Origin) -> usize
        ensures limit { result ≡ connection_limit_for from }
        ensures most { result ≤ connection_limit }
    {
        match from {
            Origin::Loopback => Self::MAX_CONNECTIONS,
            Origin::Peer => Self::MAX_REMOTE,
            Origin::Stranger | Origin::Client => Self::MAX_STRANGERS,
        }
    }

    /// A session asks under that number over this connection: from now on its answers go there. The place of that ask. None,
    /// and nothing is changed, where the connection isn't open or there are too many routes.
    pub fn route(&mut self, session: u64, request: u64, ticket: u64) -> Option<u64>
        ensures place { result ≡ then_some (may_route ticket self.old) (self.old.asked + 1) }
        ensures routes { self.new ≡ routed session request ticket self.old }
    {
        if !is_open(&self.connections, ticket) || self.routes.len() >= Self::MAX_ROUTES {
            return None;
        }
        let place = self.asked.checked_add(1)?;
        let route = Route {
            session,
            request,
            ticket,
            place,
        };
        self.routes.insert(0, route).unwrap();
        self.asked = place;
        Some(place)
    }

    /// The connection that the answer to a request goes to: the one over which that request came last, else the one over
    /// which its session asked last.
    pub fn connection_of(&self, session: u64, request: u64) -> Option<u64>
        ensures connection { result ≡ connection_of session request self.now }
        ensures open { IfSome result (λ ticket. IsTrue (is_open ticket self.now.connections)) }
    {
        connection_in(&self.routes, session, request)
    }

    /// The ask at that place was taken, or had been before: older routes of its session are gone.
    pub fn take(&mut self, session: u64, place: u64)
        ensures { self.new ≡ taken session place self.old }
    {
        remove_passed(&mut self.routes, session, place);
    }

    /// The ask at that place was refused, and leaves nothing to wait for: its route is gone, and answers go where they went
    /// before.
    pub fn take_back(&mut self, place: u64)
        ensures { self.new ≡ taken_back place self.old }
    {
        remove_route(&mut self.routes, place);
    }

    /// No answer goes to a connection any more, which is open until it leaves.
    pub fn end(&mut self, ticket: u64)
        ensures { self.new ≡ ended ticket self.old }
    {
        let routes = &mut self.routes;
        remove_routes(routes, ticket);
    }

    /// A connection is closed, and with it go the routes to it.
    pub fn leave(&mut self, ticket: u64)
        ensures { self.new ≡ closed ticket self.old }
    {
        remove_connection(&mut self.connections, ticket);
        remove_connection(&mut self.spare, ticket);
        remove_routes(&mut self.routes, ticket);
    }
}

fn is_open(connections: &[u64], ticket: u64) -> bool
    ensures { result ≡ is_open ticket connections.now }
{
    connections.iter().any(|connection| *connection == ticket)
}

fn connection_in(routes: &[Route], session: u64, request: u64) -> Option<u64>
    ensures { result ≡ connection_in session request routes.now }
{
    match connection_of_request(routes, session, request) {
        Some(ticket) => Some(ticket),
        None => connection_of_session(routes, session),
    }
}

fn connection_of_request(routes: &[Route], session: u64, request: u64) -> Option<u64>
    ensures { result ≡ ticket_of (find (is_ask session request) routes.now) }
{
    let route = routes.iter().find(|route| route.session == session && route.request == request)?;
    Some(route.ticket)
}

fn connection_of_session(routes: &[Route], session: u64) -> Option<u64>
    ensures { result ≡ ticket_of (find (λ (r : Route). r.session == session) routes.now) }
{
    let route = routes.iter().find(|route| route.session == session)?;
    Some(route.ticket)
}

fn remove_passed(routes: &mut Vec<Route>, session: u64, place: u64)
    ensures items { routes.new.items ≡ filter (λ r. not (is_passed session place r)) routes.old.items }
    ensures capacity { vec_capacity routes.new ≡ vec_capacity routes.old }
{
    routes.retain(|route| !(route.session == session && route.place < place));
}

fn remove_route(routes: &mut Vec<Route>, place: u64)
    ensures items { routes.new.items ≡ filter (λ (r : Route). not (r.place == place)) routes.old.items }
    ensures capacity { vec_capacity routes.new ≡ vec_capacity routes.old }
{
    routes.retain(|route| route.place != place);
}

fn remove_routes(routes: &mut Vec<Route>, ticket: u64)
    ensures items { routes.new.items ≡ filter (λ (r : Route). not (r.ticket == ticket)) routes.old.items }
    ensures capacity { vec_capacity routes.new ≡ vec_capacity routes.old }
{
    routes.retain(|route| route.ticket != ticket);
}

fn remove_connection(connections: &mut Vec<u64>, ticket: u64)
    ensures items { connections.new.items ≡ filter (λ connection. not (connection == ticket)) connections.old.items }
    ensures capacity { vec_capacity connections.new ≡ vec_capacity connections.old }
{
    connections.retain(|connection| *connection != ticket);
}

/// The answer to an ask goes to the connection that it came over. While another ask of its session is judged, and once that
/// was refused, the answer to what was asked before goes where it went. Those of other sessions go where they went, and none
/// to a connection that is gone.
pub fn answers_follow_asks()
    ensures asked { (session request ticket : ℕ) (g : Routing) → IsTrue (may_route ticket g)
        → connection_of session request (routed session request ticket g) ≡ Some ticket }
    ensures judged { (session request ticket other : ℕ) (g : Routing) → other ≢ request → IsSome (find (is_ask session other) g.routes)
        → connection_of session other (routed session request ticket g) ≡ connection_of session other g }
    ensures refused { (session request ticket : ℕ) (g : Routing) → AllByRecursion (λ (r : Route). r.place ≤ g.asked) g.routes
        → IsTrue (may_route ticket g) → (taken_back (g.asked + 1) (routed session request ticket g)).routes ≡ g.routes }
    ensures others { (session request ticket other that : ℕ) (g : Routing) → other ≢ session → connection_of other that (routed session request ticket g)
        ≡ connection_of other that g }
    ensures gone { (session request ticket : ℕ) (g : Routing) → connection_of session request (closed ticket g) ≢ Some ticket }
{}
