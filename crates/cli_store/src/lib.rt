//! Files as a command sees them: where a path leads, what is there, what was opened and made. Over
//! the system, and in memory.
#![tactic(auto)]

pub mod disk;
pub mod memory;
pub mod store;

pub use disk::DiskFiles;
pub use memory::{Endurance, MemoryFile, MemoryFiles};
pub use store::FileStore;
