// Serving a link.
ghost use Rattle.std.specs.Prelude.{◌≡◌, ◌≤◌, length, drop, vec_len};
ghost use Rattle.pg_base.specs.Outside.{Rose};
ghost use Rattle.pg_link.specs.Filling.{Fills};
ghost use Rattle.pg_messages.specs.Head.{blank_len};
ghost use Rattle.pg_messages.specs.Messages as messages;
ghost use Rattle.pg_messages.specs.Links as links;
ghost use Rattle.pg_messages.specs.Links.{ServesLink};
ghost use Rattle.pg_next.specs.View.{what_view};
ghost use Rattle.pg_paths.specs.Routes.{route_rows};
ghost use Rattle.pg_serve.specs.Serving.{end_view};

use crate::replying::answer_message;
use matchit::Router;
use pg_base::{Link, OutFault};
use pg_heads::blank_front;
use pg_link::{Filled, fill};
use pg_next::{Next, Refusal, What, next_message};
use pg_paths::{Kind, routes};
use pg_wire::Service;
use std::alloc::Global;

/// How serving a link ended.
#[derive(Clone, Copy, Debug)]
pub enum LinkEnd {
    /// By its last message, or where the input ended between messages.
    Done,
    /// By a refusal of this status.
    Closed { status: u16 },
    /// A read failed.
    ReadFault,
    /// A write failed.
    WriteFault,
    /// The input ended inside a message, after so many of its bytes.
    Truncated { bytes: u32 },
    /// The memory wasn't there.
    OutOfMemory,
}

/// Serves a link: answers the messages of its input in order, each once, and writes their replies. A fault comes only where the link's count for
/// it rose in this call.
pub fn serve_link<S: Service, L: Link>(alloc: Global, service: &mut S, link: &mut L) -> LinkEnd
    ensures { ServesLink S.answers service.old service.new (L.left link.old) (L.left link.new) (L.written link.old) (L.written link.new)
        (Rose (L.read_faults link.old) (L.read_faults link.new)) (Rose (L.write_faults link.old) (L.write_faults link.new)) (end_view result) }
{
    let Ok(router) = routes(alloc) else {
        return LinkEnd::OutOfMemory;
    };
    serve(alloc, &router, service, link)
}

// Serves a link by the router of all routes. The buffer's bytes up to `start` have been answered: they are dropped before more are read.
fn serve<S: Service, L: Link>(
    alloc: Global,
    router: &Router<Kind>,
    service: &mut S,
    link: &mut L,
) -> LinkEnd
    requires { router.now ≡ route_rows }
    ensures { ServesLink S.answers service.old service.new (L.left link.old) (L.left link.new) (L.written link.old) (L.written link.new)
        (Rose (L.read_faults link.old) (L.read_faults link.new)) (Rose (L.write_faults link.old) (L.write_faults link.new)) (end_view result) }
{
    let mut buffer: Vec<u8> = Vec::new(alloc);
    let mut start = 0;
    let mut number = 0;
    loop {
        let (_, rest) = buffer.as_slice().split_at(start);
        match next_message(router, number, rest) {
            Next::Message(message) => {
                match answer_message(alloc, service, link, &message) {
                    Ok(()) => {}
                    Err(OutFault::Failed) => return LinkEnd::WriteFault,
                    Err(OutFault::OutOfMemory) => return LinkEnd::OutOfMemory,
                }
                if message.closes {
                    return end_after(message.what);
                }
                start += message.size;
                number += 1;
            }
            Next::Wants(wanted) => {
                match fill_behind(link, &mut buffer, start, wanted) {
                    Filled::Enough => start = 0,
                    Filled::End => return end_inside(&buffer),
                    Filled::ReadFault => return LinkEnd::ReadFault,
                    Filled::OutOfMemory => return LinkEnd::OutOfMemory,
                }
            }
        }
    }
}

// Drops the buffer's bytes up to `start`, and reads behind the others until there are so many.
fn fill_behind<L: Link>(link: &mut L, buffer: &mut Vec<u8>, start: usize, wanted: usize) -> Filled
    requires start { start ≤ vec_len buffer.old }
    requires most { wanted ≤ 81_920 }
    requires fits { vec_len buffer.old ≤ 81_920 }
    ensures fills { Fills (L.left link.old) (L.left link.new) (Rose (L.read_faults link.old) (L.read_faults link.new))
        (drop start buffer.old.items) buffer.new.items wanted result }
    ensures fits { vec_len buffer.new ≤ 81_920 }
    ensures written { L.written link.new ≡ L.written link.old }
    ensures write_faults { L.write_faults link.new ≡ L.write_faults link.old }
    ensures later { L.read_faults link.old ≤ L.read_faults link.new }
{
    drop_front(buffer, start);
    fill(link, buffer, wanted)
}

// Drops so many bytes at the front.
fn drop_front(buffer: &mut Vec<u8>, size: usize)
    requires { size ≤ vec_len buffer.old }
    ensures items { buffer.new.items ≡ drop size buffer.old.items }
    ensures len { vec_len buffer.new ≤ vec_len buffer.old }
{
    if size > 0 {
        buffer.drain(..size);
    }
}

// How a connection ends by its last message.
fn end_after(what: What<'_>) -> LinkEnd
    ensures { end_view result ≡ links.ended (messages.end_after (what_view what.entry)) }
{
    match what {
        What::Refused(Refusal::HeadLimit) => LinkEnd::Closed { status: 431 },
        What::Refused(Refusal::Head) => LinkEnd::Closed { status: 400 },
        What::Refused(Refusal::Length) => LinkEnd::Closed { status: 400 },
        What::Refused(Refusal::Coding) => LinkEnd::Closed { status: 501 },
        What::Refused(Refusal::TooLong(_)) => LinkEnd::Closed { status: 413 },
        _ => LinkEnd::Done,
    }
}

// How a connection ends whose input ends behind these bytes, with no message in them.
fn end_inside(rest: &[u8]) -> LinkEnd
    requires { length rest.now ≤ 81_920 }
    ensures { end_view result ≡ links.ended (messages.end_of_rest (blank_len rest.now) (length rest.now)) }
{
    if blank_front(rest) == rest.len() {
        return LinkEnd::Done;
    }
    LinkEnd::Truncated {
        bytes: rest.len() as u32,
    }
}
