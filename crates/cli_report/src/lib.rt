//! Hints on failures of files, streams and captures: the lines below the line of a fault that help
//! to fix it, each indented by two blanks. No filter is known here.
#![tactic(auto)]

pub mod captures;
pub mod commands;
pub mod failures;
pub mod files;
pub mod probe;
pub mod stream;

pub use probe::FailureProbe;
pub use stream::{ErrorStream, HintSink};
