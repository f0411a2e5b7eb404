//! What helps at a colon after an address or a number, and at a range with two dots.

use crate::addresses::{is_dotted, is_number};
use crate::advice::Found;
use crate::choice::{PORT, PORTRANGE};
use crate::instead::{Instead, advise_instead};
use filter_spots::{HOST, Run, Spot, port_of};
use std::alloc::Global;
use std::fmt;
use std::fmt::{Display, Formatter};
use visible_text::Shown;

/// Words that an address follows, and with which a port is written too.
static BEFORE_ENDPOINTS: [&[u8]; 3] = [HOST, b"src", b"dst"];

/// An address with a port, and the word before them.
#[derive(Clone, Copy)]
pub struct Endpoint<'a> {
    word: &'a [u8],
    address: &'a [u8],
    port: &'a [u8],
}

/// As two tests: `dst host 10.0.0.1 and dst port 80`.
impl Display for Endpoint<'_> {
    fn fmt<W: fmt::Write>(&self, f: &mut Formatter<W>) -> fmt::Result {
        let (address, port) = (Shown(self.address), Shown(self.port));
        if self.word == HOST {
            write!(f, "host {address} and port {port}")
        } else {
            let word = Shown(self.word);
            write!(f, "{word} host {address} and {word} port {port}")
        }
    }
}

/// The two parts of a text with one colon.
fn parts_of(text: &[u8]) -> Option<(&[u8], &[u8])> {
    let colon = text.iter().position(|byte| *byte == b':')?;
    Some((text.get(..colon)?, text.get(colon + 1..)?))
}

/// The address with a port around a place, if a word comes before it that both can have.
fn endpoint_at<'a>(spot: Spot<'a>, run: Run<'a>) -> Option<Endpoint<'a>> {
    let (address, port) = parts_of(run.bytes)?;
    let word = spot.at(run.start).last();
    if is_dotted(address) && is_number(port) && BEFORE_ENDPOINTS.contains(&word) {
        Some(Endpoint {
            word,
            address,
            port,
        })
    } else {
        None
    }
}

/// What helps at an address with a port after a colon, as `dst 10.0.0.1:80`.
pub(crate) fn of_endpoint<'a>(alloc: Global, spot: Spot<'a>) -> Found<'a> {
    let run = spot.run();
    let Some(endpoint) = endpoint_at(spot, run) else {
        return Ok(None);
    };
    let start = spot.at(run.start).start_of_last();
    if !spot.at(start).joins_tests() {
        return Ok(None);
    }
    let end = run.start.saturating_add(run.bytes.len());
    advise_instead(alloc, spot, start, end, Instead::Endpoint(endpoint))
}

/// The two parts of a text with two dots.
fn ends_of(text: &[u8]) -> Option<(&[u8], &[u8])> {
    let dots = text.windows(2).position(|pair| pair == b"..".as_slice())?;
    Some((text.get(..dots)?, text.get(dots.saturating_add(2)..)?))
}

/// The ports of a range.
fn ports_between(first: &[u8], last: &[u8]) -> Option<(u16, u16)> {
    Some((port_of(first)?, port_of(last)?))
}

/// What helps at a range with a colon or with two dots, as `portrange 80:90` or `port 80..90`.
pub(crate) fn of_other_range<'a>(alloc: Global, spot: Spot<'a>) -> Found<'a> {
    let run = spot.run();
    let first_spot = spot.at(run.start);
    let end = run.start.saturating_add(run.bytes.len());
    let Some((first, last)) = parts_of(run.bytes).or_else(|| ends_of(run.bytes)) else {
        return Ok(None);
    };
    match ports_between(first, last) {
        Some(_) if first_spot.last() == PORTRANGE => {
            advise_instead(alloc, spot, run.start, end, Instead::Range(first, last))
        }
        Some((first, last)) if first_spot.last() == PORT => advise_instead(
            alloc,
            spot,
            first_spot.start_of_last(),
            end,
            Instead::Ports(first, last),
        ),
        _ => Ok(None),
    }
}
