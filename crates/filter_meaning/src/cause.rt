//! Why a primitive or a relation aborts.

/// Why a primitive or a relation aborts.
#[derive(Clone, Copy, Debug, PartialEq, Eq)]
pub enum AbortCause {
    /// This byte of the frame, counted from 0, was wanted, and is not among the captured ones. It
    /// is the first such byte.
    NotCaptured(usize),
    /// The divisor of a `/` or a `%` was 0.
    ZeroDivisor,
}
