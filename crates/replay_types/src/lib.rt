//! What a replay in threads is asked for, whether its numbers are valid, and what it returns.
#![tactic(auto)]

mod check;
mod fault;
mod report;
mod task;

pub use check::{MAX_CAPTURES, MAX_INTERFACES, MAX_SPARES, MAX_TASKS, check_all};
pub use fault::RunFault;
pub use report::{InterfaceEnd, InterfaceReport, ListenerReport, TaskEnd};
pub use task::{Interface, Task};
