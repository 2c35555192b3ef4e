// A message of a connection.
use pg_paths::Verb;
use pg_wire::Request;

/// A request that no service gets.
#[derive(Clone, Copy)]
pub enum Refusal<'a> {
    /// 431: the head is longer than a head may be. The connection ends, as by the next four.
    HeadLimit,
    /// 400: the bytes are no head.
    Head,
    /// 400: the body's length is no number, or stands twice.
    Length,
    /// 501: a transfer coding.
    Coding,
    /// 413: the body is longer than a body may be. The digits as they were sent.
    TooLong(&'a str),
    /// 404: its path has no route. The connection goes on, as by the next one.
    NoRoute,
    /// 405: its method isn't this one of its path.
    NotItsVerb(Verb),
}

/// What a message is.
#[derive(Clone, Copy)]
pub enum What<'a> {
    /// A request for the service.
    Asks(Request<'a>),
    Refused(Refusal<'a>),
}

/// A message, how many bytes it has, and whether its reply says that the connection ends.
#[derive(Clone, Copy)]
pub struct Message<'a> {
    pub what: What<'a>,
    pub size: usize,
    pub closes: bool,
}
