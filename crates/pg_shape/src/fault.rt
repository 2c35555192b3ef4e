// Why tokens are no shape.
use pg_base::Wanted;
use thiserror::Error;

/// Why tokens are no shape. Each `at` is a byte of the source: that of a token, or the
/// end.
#[derive(Clone, Copy, Debug, PartialEq, Eq, Error)]
pub enum ShapeFault {
    /// Nothing begins so; `what` is a kind of thing that could stand at this place.
    #[error("expected {what} at byte {at}")]
    Expected { at: u32, what: Wanted },
    /// The token at this place is nested over 100.
    #[error("the token at byte {at} is nested over 100")]
    Deep { at: u32 },
    /// The token at this place is number 8,193.
    #[error("the token at byte {at} is number 8193")]
    Long { at: u32 },
    /// There was no memory.
    #[error("out of memory")]
    OutOfMemory,
}
