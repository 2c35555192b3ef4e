// The reply to one message.
ghost use Rattle.std.specs.Prelude.{◌≡◌, ◌++◌, IfOk, option_map};
ghost use Rattle.http.specs.StatusCode.{IsStatusCode};
ghost use Rattle.pg_base.specs.Outside.{HasCause};
ghost use Rattle.pg_messages.specs.Links as links;
ghost use Rattle.pg_messages.specs.Messages as messages;
ghost use Rattle.pg_messages.specs.Replies as replies;
ghost use Rattle.pg_paths.specs.View.{verb_view};
ghost use Rattle.pg_wire.specs.View.{said_of};
ghost use Rattle.pg_next.specs.View.{IsRouted, refusal_view, message_view};
ghost use Rattle.pg_serve.specs.Serving.{Refuses, Sends, SendsRefusal, Replied};

use pg_base::{Link, OutFault};
use pg_link::write_all;
use pg_next::{Message, Refusal, What};
use pg_paths::Verb;
use pg_wire::{BodyKind, Reply, Service, reply_bytes};
use std::alloc::{AllocError, Global};

/// Answers a message, and writes its reply: a request by the service, and a refusal as it is. What is left to read, and the count of the
/// reads, stay.
pub fn answer_message<S: Service, L: Link>(
    alloc: Global,
    service: &mut S,
    link: &mut L,
    message: &Message<'_>,
) -> Result<(), OutFault>
    requires { IsRouted message.now.what }
    ensures replied { Replied S.answers service.old service.new (L.written link.old) (L.written link.new) (message_view message.now) result }
    ensures cause { HasCause (L.write_faults link.old) (L.write_faults link.new) result }
    ensures left { L.left link.new ≡ L.left link.old }
    ensures reads { L.read_faults link.new ≡ L.read_faults link.old }
{
    match message.what {
        What::Asks(request) => {
            let reply = service.answer(alloc, &request);
            send(alloc, link, &reply, None, message.closes)
        }
        What::Refused(why) => refuse(alloc, link, why, message.closes),
    }
}

// Writes the reply of a refusal.
fn refuse<L: Link>(
    alloc: Global,
    link: &mut L,
    why: Refusal<'_>,
    closes: bool,
) -> Result<(), OutFault>
    ensures sent { SendsRefusal (refusal_view why.entry) closes (L.written link.old) (L.written link.new) result }
    ensures cause { HasCause (L.write_faults link.old) (L.write_faults link.new) result }
    ensures left { L.left link.new ≡ L.left link.old }
    ensures reads { L.read_faults link.new ≡ L.read_faults link.old }
{
    let Ok(reply) = refusal(alloc, why) else {
        return Err(OutFault::OutOfMemory);
    };
    send(alloc, link, &reply, allowed(why), closes)
}

// Writes a reply. Without the memory for its bytes nothing is written.
fn send<L: Link>(
    alloc: Global,
    link: &mut L,
    reply: &Reply,
    allow: Option<Verb>,
    closes: bool,
) -> Result<(), OutFault>
    requires { IsStatusCode reply.now.status }
    ensures sent { Sends (L.written link.old) (L.written link.new) (replies.reply_bytes (said_of reply.now) (option_map verb_view allow) closes) result }
    ensures cause { HasCause (L.write_faults link.old) (L.write_faults link.new) result }
    ensures left { L.left link.new ≡ L.left link.old }
    ensures reads { L.read_faults link.new ≡ L.read_faults link.old }
{
    let Ok(text) = reply_bytes(alloc, reply, allow, closes) else {
        return Err(OutFault::OutOfMemory);
    };
    write_all(link, text.as_bytes())
}

// The reply of a refusal.
fn refusal(alloc: Global, why: Refusal<'_>) -> Result<Reply, AllocError>
    ensures status { IfOk result (λ reply. IsStatusCode reply.status) }
    ensures said { IfOk result (λ reply. Refuses (refusal_view why.entry) (said_of reply)) }
{
    match why {
        Refusal::HeadLimit => in_json(alloc, 431, "{\"error\":\"head-limit\"}"),
        Refusal::Head => in_json(alloc, 400, "{\"error\":\"head\"}"),
        Refusal::Length => in_json(alloc, 400, "{\"error\":\"length\"}"),
        Refusal::Coding => in_json(alloc, 501, "{\"error\":\"transfer-coding\"}"),
        Refusal::TooLong(digits) => too_long(alloc, digits),
        Refusal::NoRoute => in_json(alloc, 404, "{\"error\":\"route\"}"),
        Refusal::NotItsVerb(_) => in_json(alloc, 405, "{\"error\":\"method\"}"),
    }
}

fn in_json(alloc: Global, status: u16, body: &str) -> Result<Reply, AllocError>
    requires { IsStatusCode status }
    ensures status { IfOk result (λ reply. IsStatusCode reply.status) }
    ensures said { IfOk result (λ reply. said_of reply ≡ replies.in_json status body.now) }
{
    let body = String::from_str(alloc, body)?;
    Ok(Reply {
        status,
        kind: BodyKind::Json,
        body,
    })
}

fn too_long(alloc: Global, digits: &str) -> Result<Reply, AllocError>
    ensures status { IfOk result (λ reply. IsStatusCode reply.status) }
    ensures said { IfOk result (λ reply. said_of reply ≡ replies.in_json 413 (messages.too_long_body digits.now)) }
{
    let body = format!(in alloc; "{{\"error\":\"length-limit\",\"length\":\"{digits}\"}}")?;
    Ok(Reply {
        status: 413,
        kind: BodyKind::Json,
        body,
    })
}

// The method that a refusal allows.
fn allowed(why: Refusal<'_>) -> Option<Verb>
    ensures { option_map verb_view result ≡ links.allow_of (refusal_view why.entry) }
{
    match why {
        Refusal::NotItsVerb(verb) => Some(verb),
        _ => None,
    }
}
