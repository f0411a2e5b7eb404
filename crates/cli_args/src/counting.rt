//! The words of `bpftap explain` with `-c`, `-l`, or a bound, by `clap`.

ghost use Rattle.std.specs.Prelude.{◌≡◌, ◌&&◌, nat_le};

use crate::snap::snap_of;
use clap::ArgMatches;
use line_text::fields::number;
use std::alloc::{AllocError, Global};

/// What is printed of captures whose packets are counted.
#[derive(Clone, Copy, Debug, PartialEq, Eq)]
pub enum CountShown {
    /// With `-c`: the counts of each capture, and of several the sum.
    Counts,
    /// With `-l`: the paths of the captures that have an accepted packet.
    Paths,
    /// With `-q`: nothing.
    Nothing,
}

/// How many packets have to be accepted: both ends are included.
#[derive(Clone, Copy, Debug, PartialEq, Eq)]
pub struct CountBounds {
    pub least: u64,
    pub most: u64,
}

impl CountBounds {
    /// Whether a count is within the bounds.
    pub fn contains(self, count: u64) -> bool
        ensures { result ≡ (nat_le self.least count && nat_le count self.most) }
    {
        self.least <= count && count <= self.most
    }
}

/// What one call of `bpftap explain` with `-c`, `-l`, or a bound asks for.
#[derive(Drop)]
pub struct CountWords<'a> {
    /// The expression, if `-e` is given.
    pub expr: Option<&'a str>,
    /// The path of the listing, if `-f` is given.
    pub listing: Option<&'a str>,
    pub shown: CountShown,
    /// The bounds of the status, if any is given.
    pub bounds: Option<CountBounds>,
    /// Whether `--json` is given.
    pub json: bool,
    /// The paths of the captures, in order.
    pub inputs: Vec<&'a str>,
}

/// What the number of a bound is.
const NUMBER_WANTED: &str =
    "--exactly, --at-least and --at-most take a number from 0 to 18446744073709551615";

/// What goes with a bound.
const SHOWN_WANTED: &str = "--exactly, --at-least and --at-most go with -q or -c";

/// What goes with `--exactly`.
const ALONE_WANTED: &str = "--exactly goes without --at-least and --at-most";

/// How two bounds are ordered.
const ORDER_WANTED: &str = "--at-least takes no greater number than --at-most";

/// What is given of the bounds.
#[derive(Clone, Copy)]
struct GivenBounds {
    exactly: Option<u64>,
    least: Option<u64>,
    most: Option<u64>,
}

/// A number below 2^64 that an option gives, if it is given; the error is what is wanted.
fn number_of(matches: &ArgMatches<'_>, name: &str) -> Result<Option<u64>, &'static str> {
    match matches.get_str(name) {
        Some(text) => match number(text.as_bytes(), u64::MAX) {
            Some(number) => Ok(Some(number)),
            None => Err(NUMBER_WANTED),
        },
        None => Ok(None),
    }
}

/// The bounds that are given; the error is what is wanted.
fn given_bounds(matches: &ArgMatches<'_>) -> Result<GivenBounds, &'static str> {
    Ok(GivenBounds {
        exactly: number_of(matches, "exactly")?,
        least: number_of(matches, "at-least")?,
        most: number_of(matches, "at-most")?,
    })
}

/// The bounds that hold, if any is given; the error is what is wanted.
fn bounds_of(matches: &ArgMatches<'_>) -> Result<Option<CountBounds>, &'static str> {
    let bounds = match given_bounds(matches)? {
        GivenBounds {
            exactly: Some(count),
            least: None,
            most: None,
        } => CountBounds {
            least: count,
            most: count,
        },
        GivenBounds {
            exactly: Some(_),
            ..
        } => return Err(ALONE_WANTED),
        GivenBounds {
            least: None,
            most: None,
            ..
        } => return Ok(None),
        GivenBounds { least, most, .. } => CountBounds {
            least: least.unwrap_or(0),
            most: most.unwrap_or(u64::MAX),
        },
    };
    if bounds.least > bounds.most {
        Err(ORDER_WANTED)
    } else {
        Ok(Some(bounds))
    }
}

/// What is printed. `clap` takes at most one of these options.
fn shown_of(matches: &ArgMatches<'_>) -> CountShown {
    if matches.get_flag("counted") {
        CountShown::Counts
    } else if matches.get_flag("listed") {
        CountShown::Paths
    } else {
        CountShown::Nothing
    }
}

/// Whether the words of `explain` ask for counts: with `-c`, `-l`, or a bound.
pub(crate) fn asks_counts(matches: &ArgMatches<'_>) -> bool {
    shown_of(matches) != CountShown::Nothing
        || matches.get_str("exactly").is_some()
        || matches.get_str("at-least").is_some()
        || matches.get_str("at-most").is_some()
}

/// What is wrong with the bounds and with what is printed, if anything is.
pub(crate) fn objection_to_bounds(matches: &ArgMatches<'_>) -> Option<&'static str> {
    let is_counted = matches.get_flag("counted") || matches.get_flag("quiet");
    match bounds_of(matches) {
        Ok(Some(_)) if !is_counted => Some(SHOWN_WANTED),
        Ok(_) => None,
        Err(wanted) => Some(wanted),
    }
}

/// The words that were found, `None` if one is missing, or if the snapshot length or a bound is
/// invalid.
pub fn count_words<'a>(
    alloc: Global,
    matches: &ArgMatches<'a>,
) -> Result<Option<CountWords<'a>>, AllocError> {
    let (Some(_), Some(inputs)) = (snap_of(matches), matches.get_strs("IN")) else {
        return Ok(None);
    };
    let Ok(bounds) = bounds_of(matches) else {
        return Ok(None);
    };
    if objection_to_bounds(matches).is_some() {
        return Ok(None);
    }
    Ok(Some(CountWords {
        expr: matches.get_str("expr"),
        listing: matches.get_str("listing"),
        shown: shown_of(matches),
        bounds,
        json: matches.get_flag("json"),
        inputs: Vec::from_slice(alloc, inputs)?,
    }))
}
