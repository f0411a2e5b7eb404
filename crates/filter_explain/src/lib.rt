//! Why an expression accepts or rejects a packet: which of its primitives and relations were asked,
//! what each answered, and why one aborted.
#![tactic(auto)]

mod asking;
mod decided;
pub mod laws;
mod text;

pub use asking::{AskedPart, explain};
pub use decided::decide;
pub use filter_meaning::AbortCause;
pub use text::{put_cause, put_decision, put_part, put_verdict, verdict_text};
