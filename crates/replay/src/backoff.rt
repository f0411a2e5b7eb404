//! Waiting without burning.

use std::sync::Wait;
use std::thread;
use std::thread::Parker;
use std::time::Duration;

/// How often a thread that finds nothing to do lets others run before it parks: what it waits for
/// mostly comes soon.
const TURNS: u32 = 32;

/// How long it parks at first, and at most, in milliseconds. It is woken before, so only this
/// bounds what a wake-up costs that is lost, as that by a thread which was never started.
const FIRST_MILLIS: u64 = 1;

const MAX_MILLIS: u64 = 64;

/// How long a thread waits that finds nothing to do: longer each time.
#[derive(Clone, Copy)]
pub(crate) struct Backoff {
    turns: u32,
    millis: u64,
}

impl Backoff {
    /// Of a thread that has just had something to do.
    pub(crate) fn new() -> Backoff {
        Backoff {
            turns: 0,
            millis: FIRST_MILLIS,
        }
    }

    /// Whether the next wait is the first one to park.
    pub(crate) fn is_out(&self) -> bool {
        self.turns == TURNS && self.millis == FIRST_MILLIS
    }

    /// Waits a while. It may be woken before.
    pub(crate) fn wait<R: Wait>(&mut self, rt: &R, parker: &Parker) {
        if self.turns < TURNS {
            self.turns += 1;
            thread::yield_now();
            return;
        }
        parker.park_timeout(rt, Duration::from_millis(self.millis));
        self.millis = self.millis.saturating_mul(2).min(MAX_MILLIS);
    }
}
