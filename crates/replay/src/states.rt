//! What becomes of an interface, of its tasks and of their feeders: a type for each state.
//!
//! ```text
//! interface   Interface ───▶ Prepared ─────────────▶ Running ─────────────────▶ InterfaceReport
//! task        Task ────────▶ TaskParts ────────────▶ TaskThreads ─▶ TaskDone ─▶ ListenerReport
//! feeder                     FeederSlot ───────────▶ EndedFeeder
//! by          setup          interface_threads,      replaying_thread, reporting, settling
//!                            task_threads
//! ```
//!
//! All is made before any thread is started (`Prepared`). Threads borrow the links of their tasks,
//! so the links are apart. The threads own the rest while they run, and hand it back as they end.

mod feeder;
mod interface;
mod task;

pub(crate) use feeder::{EndedFeeder, FeederSlot};
pub(crate) use interface::{AllPrepared, Prepared, Running};
pub(crate) use task::{TaskDone, TaskParts, TaskThreads};
