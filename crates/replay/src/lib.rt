//! Replays captures to listeners in threads: packets arrive at each listener, and what it keeps is
//! written as a savefile.
#![tactic(auto)]

mod backoff;
mod capture_output;
mod gate;
mod interface_threads;
mod reading_thread;
mod replaying_thread;
mod reporting;
mod reserved;
mod settling;
mod setup;
mod start_barrier;
mod states;
mod task_link;
mod task_threads;
mod whole_replay;
mod writer_thread;

pub use gate::{Gate, Open};
pub use replay_types::{
    Interface, InterfaceEnd, InterfaceReport, ListenerReport, MAX_CAPTURES, MAX_INTERFACES,
    MAX_SPARES, MAX_TASKS, RunFault, Task, TaskEnd,
};
pub use whole_replay::run;
