// The message at the front of some bytes.
ghost use Rattle.std.specs.Prelude.{◌≡◌, ◌≤◌, ◌+◌, ℕ, true, List, length, codes, Option, option_map};
ghost use Rattle.httparse.specs.Grammar.{RequestHead};
ghost use Rattle.pg_messages.specs.Messages as messages;
ghost use Rattle.pg_heads.specs.Told.{Tells, IsFound};
ghost use Rattle.pg_paths.specs.Routes.{route_rows};
ghost use Rattle.pg_next.specs.View.{IsNextTold, IsTold, IsBodied, what_view, message_view, refusal_view, IsRouted, AsksRouted};

use crate::message::{Message, Refusal, What};
use crate::size::{Size, size_of};
use matchit::Router;
use pg_heads::{Found, Head, Scan, head_scan, read_head};
use pg_paths::{Kind, path_of, route_of};
use pg_wire::Request;

/// The message at the front, or how many bytes decide it at the earliest.
#[derive(Clone, Copy)]
pub enum Next<'a> {
    Message(Message<'a>),
    Wants(usize),
}

/// The message at the front of the bytes, which is the connection's of this number, from 0 on.
pub fn next_message<'a>(router: &Router<Kind>, number: u32, bytes: &'a [u8]) -> Next<'a>
    requires { router.now ≡ route_rows }
    ensures next { IsNextTold number bytes.now result }
    ensures routed { AsksRouted result }
{
    match head_scan(bytes) {
        Scan::Open => Next::Wants(bytes.len() + 1),
        Scan::OverLimit => Next::Message(last(Refusal::HeadLimit, 0)),
        Scan::Ended { blank, head } => {
            let size = blank + head;
            let (front, rest) = bytes.split_at(size);
            let (_, head) = front.split_at(blank);
            match read_head(head) {
                None => Next::Message(last(Refusal::Head, size)),
                Some(told) => of_head(router, number, size, rest, &told),
            }
        }
    }
}

// A refusal by which the connection ends.
fn last(why: Refusal<'_>, size: usize) -> Message<'_>
    ensures routed { IsRouted result.what }
    ensures message { message_view result ≡ record { what = refusal_view why.entry; size = size; closes = true } }
{
    Message {
        what: What::Refused(why),
        size,
        closes: true,
    }
}

// The message that begins with this head, of so many bytes; `rest` stands behind it.
fn of_head<'a>(
    router: &Router<Kind>,
    number: u32,
    size: usize,
    rest: &'a [u8],
    head: &Head<'a>,
) -> Next<'a>
    requires router { router.now ≡ route_rows }
    requires most { size ≤ 16_384 }
    ensures told { (h : RequestHead) → Tells head.now h → IsTold number size rest.now h result }
    ensures routed { AsksRouted result }
{
    match size_of(head.length) {
        Size::NoLength => Next::Message(last(Refusal::Length, size)),
        _ if head.coded => Next::Message(last(Refusal::Coding, size)),
        Size::TooLong(digits) => Next::Message(last(Refusal::TooLong(digits), size)),
        Size::Bytes(most) => with_body(router, number, size, rest, head, most),
    }
}

// The message of such a head with a body of so many bytes.
fn with_body<'a>(
    router: &Router<Kind>,
    number: u32,
    size: usize,
    rest: &'a [u8],
    head: &Head<'a>,
    most: usize,
) -> Next<'a>
    requires router { router.now ≡ route_rows }
    requires most { size + most ≤ 81_920 }
    ensures told { (h : RequestHead) → Tells head.now h → IsBodied number size rest.now h most result }
    ensures routed { AsksRouted result }
{
    if rest.len() < most {
        return Next::Wants(size + most);
    }
    let (body, _) = rest.split_at(most);
    Next::Message(Message {
        what: what_of(router, head, body),
        size: size + most,
        closes: is_last(number, head),
    })
}

// What a head and a body ask: the path decides, and then the method.
fn what_of<'a>(router: &Router<Kind>, head: &Head<'a>, body: &'a [u8]) -> What<'a>
    requires { router.now ≡ route_rows }
    ensures routed { IsRouted result }
    ensures what { (h : RequestHead) → Tells head.now h → what_view result ≡ messages.what_of h body.now }
{
    let Some(route) = route_of(router, path_of(head.target)) else {
        return What::Refused(Refusal::NoRoute);
    };
    let verb = route.verb();
    if head.method != verb.word().as_bytes() {
        return What::Refused(Refusal::NotItsVerb(verb));
    }
    What::Asks(Request {
        method: verb,
        route,
        pass: one_text(head.pass),
        body,
    })
}

// The one value of a field, where it is a text.
fn one_text(found: Found<'_>) -> Option<&str>
    ensures { (values : List (List ℕ)) → IsFound found.entry values → option_map (λ p. p.now) result ≡ messages.one_text values }
{
    let Found::One(value) = found else {
        return None;
    };
    str::from_utf8(value).ok()
}

// Whether the connection ends after a message with this head.
fn is_last(number: u32, head: &Head<'_>) -> bool
    ensures { (h : RequestHead) → Tells head.now h → result ≡ messages.is_last number h }
{
    head.minor == 0 || head.method == b"HEAD".as_slice() || number == 999 || head.closes
}
