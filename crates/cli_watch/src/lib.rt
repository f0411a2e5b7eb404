//! The captures of a command, watched while it reads them: how far the reading is, and how many
//! frames no filter looks into.
#![tactic(auto)]

pub mod captures;
pub mod frames;
pub mod hints;
pub mod output;
pub mod progress;
pub mod screen;
pub mod watch;

pub use screen::Screen;
pub use watch::{Watch, WatchedReader};
