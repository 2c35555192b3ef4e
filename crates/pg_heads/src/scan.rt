// Where the head at the front of some bytes ends.
ghost use Rattle.std.specs.Prelude.{◌≡◌, ◌≤◌, ◌+◌, length, drop, take, IfSome};
ghost use Rattle.pg_messages.specs.Head as heads;
ghost use Rattle.pg_heads.specs.View.{scan_view};

use memchr::memchr;

/// How many bytes a head has at most, with the empty lines that stand before it.
const HEAD_BYTES: usize = 16_384;

/// How many lines a head has at most, with the empty one.
const HEAD_LINES: u32 = 66;

/// How far a head has come.
#[derive(Clone, Copy, Debug)]
pub enum Scan {
    /// It hasn't ended yet.
    Open,
    /// It is longer than a head may be.
    OverLimit,
    /// It has ended: after so many bytes of empty lines come so many of the head.
    Ended { blank: usize, head: usize },
}

/// Where the head at the front ends, behind the empty lines that are passed over.
pub fn head_scan(bytes: &[u8]) -> Scan
    ensures { scan_view result ≡ heads.head_scan bytes.now }
{
    let window = front(bytes);
    let blank = blank_front(window);
    let (_, lines) = window.split_at(blank);
    let scan = head_lines(blank, 0, lines, HEAD_LINES);
    match scan {
        Scan::Open => {
            if window.len() == HEAD_BYTES {
                Scan::OverLimit
            } else {
                Scan::Open
            }
        }
        _ => scan,
    }
}

// The bytes in which a head must end.
fn front(bytes: &[u8]) -> &[u8]
    ensures value { result.now ≡ take 16_384 bytes.now }
    ensures most { length result.now ≤ 16_384 }
{
    if bytes.len() <= HEAD_BYTES {
        return bytes;
    }
    let (window, _) = bytes.split_at(HEAD_BYTES);
    window
}

/// How many bytes the empty lines at the front have.
pub fn blank_front(bytes: &[u8]) -> usize
    ensures value { result ≡ heads.blank_len bytes.now }
    ensures most { result ≤ length bytes.now }
{
    let mut at = 0;
    while at < bytes.len() {
        let (_, rest) = bytes.split_at(at);
        let size = blank_line(rest);
        if size == 0 {
            return at;
        }
        at += size;
    }
    at
}

// How many bytes the empty line at the front has, or 0 where none stands there.
fn blank_line(bytes: &[u8]) -> usize
    ensures rest { heads.blank_len bytes.now ≡ result + heads.blank_len (drop result bytes.now) }
    ensures none { result ≡ 0 → heads.blank_len bytes.now ≡ 0 }
    ensures most { result ≤ length bytes.now }
{
    if bytes.starts_with(b"\n") {
        return 1;
    }
    if bytes.starts_with(b"\r\n") {
        return 2;
    }
    0
}

// The lines up to the first empty one, which is one of the first `most`, behind so many bytes of other lines.
fn head_lines(blank: usize, passed: usize, bytes: &[u8], most: u32) -> Scan
    requires { passed + length bytes.now ≤ 16_384 }
    ensures { scan_view result ≡ heads.later passed (heads.head_lines blank most bytes.now) }
{
    if most == 0 {
        return Scan::OverLimit;
    }
    let Some(size) = line_len(bytes) else {
        return Scan::Open;
    };
    let (line, rest) = bytes.split_at(size);
    if is_empty_line(line) {
        return Scan::Ended {
            blank,
            head: passed + size,
        };
    }
    head_lines(blank, passed + size, rest, most - 1)
}

// How many bytes the first line has with its line feed, where it has ended.
fn line_len(bytes: &[u8]) -> Option<usize>
    ensures value { result ≡ heads.line_len bytes.now }
    ensures most { IfSome result (λ n. n ≤ length bytes.now) }
{
    let at = memchr(b'\n', bytes)?;
    Some(at + 1)
}

// Whether a line is empty. A carriage return before the line feed counts as nothing.
fn is_empty_line(line: &[u8]) -> bool
    ensures { result ≡ heads.is_empty_line line.now }
{
    line == b"\n".as_slice() || line == b"\r\n".as_slice()
}
