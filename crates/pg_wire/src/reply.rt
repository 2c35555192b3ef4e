// A reply and its bytes.
ghost use Rattle.std.specs.Prelude.{◌≡◌, ◌++◌, [], IfOk, option_map, string_bytes, unwrap_or};
ghost use Rattle.http.specs.StatusCode.{IsStatusCode, reason_phrase};
ghost use Rattle.pg_messages.specs.Replies as replies;
ghost use Rattle.pg_paths.specs.View.{verb_view};
ghost use Rattle.pg_wire.specs.View.{kind_view, said_of};

use http::StatusCode;
use pg_paths::Verb;
use std::alloc::{AllocError, Global};

/// What the body of a reply is.
#[derive(Clone, Copy, Debug)]
pub enum BodyKind {
    /// `application/json`
    Json,
    /// `text/plain; charset=utf-8`
    Text,
}

impl BodyKind {
    /// The kind as the field `Content-Type` has it.
    pub fn word(self) -> &'static str
        ensures { result.now ≡ replies.content_type (kind_view self) }
    {
        match self {
            BodyKind::Json => "application/json",
            BodyKind::Text => "text/plain; charset=utf-8",
        }
    }
}

/// What is answered to a request.
#[derive(Drop)]
pub struct Reply {
    pub status: u16,
    pub kind: BodyKind,
    pub body: String,
}

impl Reply {
    /// The reply of want of memory. It takes no memory: its body stays empty until it is sent.
    pub fn memory(alloc: Global) -> Reply
        ensures { result.status ≡ 507 }
    {
        Reply {
            status: 507,
            kind: BodyKind::Json,
            body: String::new(alloc),
        }
    }
}

/// The bytes of a reply. A 507 is sent as want of memory, whatever it holds. `allow` is the verb that the path has, where the
/// status is 405; `closes` says that the connection ends by this reply.
pub fn reply_bytes(
    alloc: Global,
    reply: &Reply,
    allow: Option<Verb>,
    closes: bool,
) -> Result<String, AllocError>
    requires { IsStatusCode reply.now.status }
    ensures { IfOk result (λ text. string_bytes text ≡ replies.reply_bytes (said_of reply.now) (option_map verb_view allow) closes) }
{
    if reply.status == 507 {
        return whole(
            alloc,
            507,
            BodyKind::Json,
            allow,
            closes,
            "{\"error\":\"memory\"}",
        );
    }
    whole(
        alloc,
        reply.status,
        reply.kind,
        allow,
        closes,
        reply.body.as_str(),
    )
}

// The bytes of a reply with these parts.
fn whole(
    alloc: Global,
    status: u16,
    kind: BodyKind,
    allow: Option<Verb>,
    closes: bool,
    body: &str,
) -> Result<String, AllocError>
    requires { IsStatusCode status }
    ensures { IfOk result (λ text. string_bytes text ≡ replies.message_bytes
        (record { status = status; kind = kind_view kind; body = body.now }) (option_map verb_view allow) closes) }
{
    let first = status_line(alloc, status)?;
    let kinds = kind_lines(alloc, kind, allow)?;
    let sizes = size_lines(alloc, body.len(), closes)?;
    joined(alloc, first.as_str(), kinds.as_str(), sizes.as_str(), body)
}

fn joined(
    alloc: Global,
    first: &str,
    kinds: &str,
    sizes: &str,
    body: &str,
) -> Result<String, AllocError>
    ensures { IfOk result (λ text. string_bytes text ≡ first.now ++ (kinds.now ++ (sizes.now ++ body.now))) }
{
    format!(in alloc; "{first}{kinds}{sizes}{body}")
}

fn status_line(alloc: Global, status: u16) -> Result<String, AllocError>
    requires { IsStatusCode status }
    ensures { IfOk result (λ text. string_bytes text ≡ replies.status_line status) }
{
    let words = phrase(status);
    format!(in alloc; "HTTP/1.1 {status} {words}\r\n")
}

fn kind_lines(alloc: Global, kind: BodyKind, allow: Option<Verb>) -> Result<String, AllocError>
    ensures { IfOk result (λ text. string_bytes text ≡ replies.kind_lines (kind_view kind) (option_map verb_view allow)) }
{
    let kind = kind.word();
    let allow = allow_line(allow);
    format!(in alloc; "Content-Type: {kind}\r\n{allow}")
}

fn size_lines(alloc: Global, size: usize, closes: bool) -> Result<String, AllocError>
    ensures { IfOk result (λ text. string_bytes text ≡ replies.size_lines size closes) }
{
    let close = close_line(closes);
    format!(in alloc; "Content-Length: {size}\r\n{close}\r\n")
}

// The phrase of a status, or nothing where it has none.
fn phrase(status: u16) -> &'static str
    requires { IsStatusCode status }
    ensures { result.now ≡ unwrap_or (reason_phrase status) [] }
{
    StatusCode::from_u16(status)
        .unwrap()
        .canonical_reason()
        .unwrap_or("")
}

fn allow_line(allow: Option<Verb>) -> &'static str
    ensures { result.now ≡ replies.allow_line (option_map verb_view allow) }
{
    match allow {
        None => "",
        Some(Verb::Get) => "Allow: GET\r\n",
        Some(Verb::Post) => "Allow: POST\r\n",
    }
}

fn close_line(closes: bool) -> &'static str
    ensures { result.now ≡ replies.close_line closes }
{
    if closes { "Connection: close\r\n" } else { "" }
}
