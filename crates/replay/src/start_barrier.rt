//! Whether all threads of a replay were started: none does anything before it knows that.

use std::alloc::Global;
use std::sync::{Mutex, MutexGuard, Wait};
use std::thread::Scope;

/// Says whether all threads were started. It is locked while they are.
#[derive(Drop)]
pub(crate) struct StartBarrier {
    all_started: Mutex<bool>,
}

impl StartBarrier {
    pub(crate) fn new() -> StartBarrier {
        StartBarrier {
            all_started: Mutex::new(false),
        }
    }

    /// Holds the threads back that are started from now on. Who starts them stores `true` here once
    /// all were started.
    pub(crate) fn begin<R: Wait>(&self, rt: &R) -> MutexGuard<'_, bool> {
        self.all_started.lock(rt)
    }

    /// Waits until all threads were started, or one was refused, and says whether all were.
    pub(crate) fn is_whole<R: Wait>(&self, rt: &R) -> bool {
        *self.all_started.lock(rt)
    }
}

/// What all threads of a replay share.
#[derive(Drop)]
pub(crate) struct Shared<'s, G> {
    pub(crate) barrier: StartBarrier,
    pub(crate) gate: &'s G,
    /// For the buffers that captures are read into.
    pub(crate) alloc: Global,
}

/// Who starts threads: with which handle, in which scope, and what they share.
#[derive(Drop)]
pub(crate) struct Starter<'s, E: 's, G, R> {
    pub(crate) rt: &'s R,
    pub(crate) scope: &'s Scope<'s, E>,
    pub(crate) shared: &'s Shared<'s, G>,
}
