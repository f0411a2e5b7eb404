//! Where things are in the picture. All lengths are in pixels.

/// The room left of the lanes, which has their names.
pub const MARGIN: u64 = 150;
/// The height of a lane's bars.
pub const BARS: u64 = 150;
/// The height of a lane, with its head and the names of its steps.
pub const LANE: u64 = 210;
/// The height of the part above the lanes.
pub const HEAD: u64 = 60;

/// The least width of the picture, which the legend takes.
const LEAST_WIDTH: u64 = 900;
/// The room at the left of a line of text, and again at its right.
const INDENT: u64 = 10;
/// The width of a character; most are narrower.
const CHARACTER: u64 = 7;

/// The width of the picture, from the width of its lanes.
pub fn page_width(lanes: u64) -> u64 {
    lanes.saturating_add(MARGIN + 2 * INDENT).max(LEAST_WIDTH)
}

/// How many characters a line of text has room for.
pub fn characters(lanes: u64) -> u64 {
    page_width(lanes).saturating_sub(2 * INDENT) / CHARACTER
}

/// The width of a step: wide if there are few.
pub fn step_width(steps: usize) -> u64 {
    match steps {
        0..=60 => 20,
        61..=250 => 6,
        _ => 2,
    }
}

/// Whether there is room for the names of steps.
pub fn are_named(steps: usize) -> bool {
    steps <= 60
}
