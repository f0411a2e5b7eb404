//! One large capture, read and cut in parts: the header, and ranges of the bytes after it.
#![tactic(auto)]

pub mod again;
pub mod copy;
pub mod files;
pub mod join;
pub mod laws;
pub mod part;
pub mod select;
pub mod start;
pub mod writing;
