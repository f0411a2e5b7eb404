//! The room for an answer's line.

/// A line that is put together, and what is in one of its strings.
#[derive(Drop)]
pub struct LineBuffer {
    pub line: String,
    pub text: String,
}
