//! What a terminal shows while two filters are decided: that can take seconds.

use cli_watch::Screen;

/// The line. The next text begins where it does.
const DECIDING: &[u8] = b"\rdeciding for every packet\r";

/// Blanks in its place.
const ERASED: &[u8] = b"\r                         \r";

/// The line that two filters are being decided.
#[derive(Drop)]
pub struct Notice<'r, R> {
    rt: &'r R,
    is_shown: bool,
}

impl<'r, R: Screen> Notice<'r, R> {
    /// It is shown if that is wanted and standard error is a terminal.
    pub fn new(rt: &'r R, is_wanted: bool) -> Notice<'r, R> {
        Notice {
            rt,
            is_shown: is_wanted && rt.is_error_terminal(),
        }
    }

    /// Puts the line on the terminal.
    pub fn put(&self) {
        if self.is_shown {
            self.rt.show(DECIDING);
        }
    }

    /// Erases it, before anything is printed or reported.
    pub fn erase(&self) {
        if self.is_shown {
            self.rt.show(ERASED);
        }
    }
}
