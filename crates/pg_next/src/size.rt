// How many bytes a body has, by the field Content-Length.
ghost use Rattle.pg_next.specs.Sizes.{IsSize, IsSizeOf, FitsBody};
ghost use Rattle.pg_heads.specs.Told.{IsFound};
ghost use Rattle.std.specs.Prelude.{◌≡◌, ◌≤◌, ◌+◌, ◌*◌, ◌-◌, List, ℕ, min};

use pg_heads::Found;

/// How many bytes a body has at most.
pub const BODY_BYTES: usize = 65_536;

/// What a length says.
#[derive(Clone, Copy)]
pub enum Size<'a> {
    /// So many bytes.
    Bytes(usize),
    /// It is no number, or there is more than one.
    NoLength,
    /// More than a body may have: the digits as they were sent.
    TooLong(&'a str),
}

/// The size of a body. Without the field it is 0.
pub fn size_of(length: Found<'_>) -> Size<'_>
    ensures size { (values : List (List ℕ)) → IsFound length.entry values → IsSizeOf values result }
    ensures fits { FitsBody result }
{
    match length {
        Found::Absent => Size::Bytes(0),
        Found::One(digits) => digits_size(digits),
        Found::Many => Size::NoLength,
    }
}

// The size that some digits write.
fn digits_size(digits: &[u8]) -> Size<'_>
    ensures { IsSize digits.now result }
{
    let mut value: usize = 0;
    for digit in digits {
        if !digit.is_ascii_digit() {
            return Size::NoLength;
        }
        value = capped(value, *digit);
    }
    if digits.is_empty() {
        return Size::NoLength;
    }
    if value <= BODY_BYTES {
        return Size::Bytes(value);
    }
    match str::from_utf8(digits) {
        Ok(text) => Size::TooLong(text),
        Err(_) => Size::NoLength,
    }
}

// The value with one digit more, or one byte more than a body may have.
fn capped(value: usize, digit: u8) -> usize
    requires value { value ≤ 65_537 }
    requires digit { (48 ≤ digit) × (digit ≤ 57) }
    ensures value { result ≡ min 65_537 (value * 10 + (digit - 48)) }
{
    let next = value * 10 + usize::from(digit - b'0');
    if next > BODY_BYTES {
        BODY_BYTES + 1
    } else {
        next
    }
}
