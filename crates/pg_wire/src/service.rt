// Requests, and what answers them.
ghost use Rattle.std.specs.Prelude.{◌≡◌};
ghost use Rattle.http.specs.StatusCode.{IsStatusCode};
ghost use Rattle.pg_messages.specs.Messages.{Ask};
ghost use Rattle.pg_messages.specs.Replies.{Said};
ghost use Rattle.pg_messages.specs.Paths.{verb_of};
ghost use Rattle.pg_paths.specs.View.{verb_view, route_view};
ghost use Rattle.pg_wire.specs.View.{ask_of, said_of};
ghost use Rattle.pg_wire.specs.Statuses.{IsReplyStatus};

use crate::reply::Reply;
use pg_paths::{Route, Verb};
use std::alloc::Global;

/// A request: its verb is its route's. The pass stands where there is exactly one field `Proofgame-Pass`, and that is a text.
#[derive(Clone, Copy)]
pub struct Request<'a> {
    pub method: Verb,
    pub route: Route<'a>,
    pub pass: Option<&'a str>,
    pub body: &'a [u8],
}

/// What answers requests.
pub trait Service {
    /// How the service goes from what it holds before a request, by its reply, to what it holds afterwards.
    ghost answers: { Self → Ask → Said → Self → Type 0 };

    /// Answers a request. The reply's status is 200, 400, 401, 403, 404, 409, 503 or 507.
    fn answer(&mut self, alloc: Global, request: &Request<'_>) -> Reply
        requires { verb_view request.now.method ≡ verb_of (route_view request.now.route) }
        ensures status { IsReplyStatus result.status }
        ensures answers { answers self.old (ask_of request.now) (said_of result) self.new };
}
