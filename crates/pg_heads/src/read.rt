// What a head says, by the grammar of `httparse`.
ghost use Rattle.std.specs.Prelude.{◌≡◌, ◌≤◌, ℕ, All, List, length, map, codes, nat_lt, IfSome};
ghost use Rattle.std.specs.List.{list_any};
ghost use Rattle.httparse.specs.Grammar.{RequestHead};
ghost use Rattle.httparse.specs.Spans.{IsHeaderWithin, IsRequestAt, IsRequestWithin, header_bytes};
ghost use Rattle.pg_messages.specs.Head.{IsWholeHead};
ghost use Rattle.pg_messages.specs.Messages.{same_name};
ghost use Rattle.pg_heads.specs.Told.{IsFound, IsRead, named};

use httparse::Status;
use httparse::spans::{EMPTY_HEADER_SPAN, HeaderSpan, RequestSpans, parse_request};

/// How many fields a head has at most.
const FIELDS: usize = 64;

/// The fields of a name: none, one with its value, or more.
#[derive(Clone, Copy)]
pub enum Found<'b> {
    Absent,
    One(&'b [u8]),
    Many,
}

/// What a head says of its message.
#[derive(Clone, Copy)]
pub struct Head<'b> {
    pub method: &'b [u8],
    /// The target, which is the path and what stands behind it.
    pub target: &'b str,
    /// 0 for HTTP/1.0, and 1 for HTTP/1.1.
    pub minor: u8,
    /// `Content-Length`.
    pub length: Found<'b>,
    /// Whether `Transfer-Encoding` stands.
    pub coded: bool,
    /// Whether a `Connection` is `close`.
    pub closes: bool,
    /// `Proofgame-Pass`.
    pub pass: Found<'b>,
}

/// What a head says, or `None` where the bytes as a whole are no head of at most 64 fields.
pub fn read_head(bytes: &[u8]) -> Option<Head<'_>>
    ensures { IsRead bytes.now result }
{
    let mut headers = [EMPTY_HEADER_SPAN; FIELDS];
    let spans = spans_of(bytes, &mut headers)?;
    let target = str::from_utf8(spans.path.of(bytes)).ok()?;
    let (fields, _) = headers.as_slice().split_at(spans.headers);
    Some(Head {
        method: spans.method.of(bytes),
        target,
        minor: spans.version,
        length: find(bytes, fields, b"content-length"),
        coded: stands(bytes, fields, b"transfer-encoding"),
        closes: has_value(bytes, fields, b"connection", b"close"),
        pass: find(bytes, fields, b"proofgame-pass"),
    })
}

// The places of the parts, where the whole of the bytes is a head of at most 64 fields.
fn spans_of(bytes: &[u8], headers: &mut [HeaderSpan]) -> Option<RequestSpans>
    requires { length headers.old ≡ 64 }
    ensures within { IfSome result (IsRequestWithin bytes.now headers.new) }
    ensures some { IfSome result (λ spans. (h : RequestHead) × IsWholeHead bytes.now h × IsRequestAt bytes.now headers.new spans h) }
    ensures none { (h : RequestHead) → IsWholeHead bytes.now h → IfSome result (λ spans. IsRequestAt bytes.now headers.new spans h) }
    ensures exactly { result ≡ None → (h : RequestHead) → IsWholeHead bytes.now h → ⊥ }
{
    match parse_request(bytes, headers) {
        Ok(Status::Complete(spans)) => {
            if spans.len == bytes.len() {
                Some(spans)
            } else {
                None
            }
        }
        _ => None,
    }
}

// The fields of a name, ignoring case.
fn find<'b>(bytes: &'b [u8], headers: &[HeaderSpan], name: &[u8]) -> Found<'b>
    requires { All (IsHeaderWithin (length bytes.now)) headers.now }
    ensures { IsFound result (named name.now (map (header_bytes bytes.now) headers.now)) }
{
    let Some((first, rest)) = headers.split_first() else {
        return Found::Absent;
    };
    let later = find(bytes, rest, name);
    if !first.name.of(bytes).eq_ignore_ascii_case(name) {
        return later;
    }
    match later {
        Found::Absent => Found::One(first.value.of(bytes)),
        Found::One(_) => Found::Many,
        Found::Many => Found::Many,
    }
}

// Whether a field of the name stands.
fn stands(bytes: &[u8], headers: &[HeaderSpan], name: &[u8]) -> bool
    requires { All (IsHeaderWithin (length bytes.now)) headers.now }
    ensures { result ≡ nat_lt 0 (length (named name.now (map (header_bytes bytes.now) headers.now))) }
{
    match find(bytes, headers, name) {
        Found::Absent => false,
        Found::One(_) => true,
        Found::Many => true,
    }
}

// Whether a field of the name has the value, both ignoring case.
fn has_value(bytes: &[u8], headers: &[HeaderSpan], name: &[u8], value: &[u8]) -> bool
    requires { All (IsHeaderWithin (length bytes.now)) headers.now }
    ensures { result ≡ list_any (λ v. same_name v value.now) (named name.now (map (header_bytes bytes.now) headers.now)) }
{
    let Some((first, rest)) = headers.split_first() else {
        return false;
    };
    if first.name.of(bytes).eq_ignore_ascii_case(name)
        && first.value.of(bytes).eq_ignore_ascii_case(value)
    {
        return true;
    }
    has_value(bytes, rest, name, value)
}
