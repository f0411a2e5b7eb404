//! Where a record may begin: a guess.

ghost use Rattle.std.specs.Prelude.{◌≡◌, ◌<◌, ◌≤◌, ◌^◌, ℕ, IfSome, length};

use savefile::{Fault, Header, MAX_SNAP, PacketRef, RECORD_HEADER_LEN, record_of};

/// How many records have to follow each other at least where one is taken to begin.
const CHAIN: usize = 8;

/// How many are looked at, at most.
const MAX_CHAIN: usize = 1024;

/// How many seconds lie at most between two packets that follow each other.
const DAY: u32 = 86_400;

/// Whether a record looks like that of a packet which was captured after one of this time: bytes of
/// it were captured, no more than it had on the wire, and none is longer than the greatest snapshot
/// length. If packets are zeros their bytes are records of no bytes.
fn is_plausible(packet: &PacketRef<'_>, before: Option<u32>) -> bool {
    let is_near = match before {
        Some(sec) => packet.sec.abs_diff(sec) <= DAY,
        None => true,
    };
    let captured = packet.bytes.len();
    is_near && packet.len <= MAX_SNAP && captured > 0 && captured <= packet.len as usize
}

/// Whether plausible records follow each other from the front of a text on, up to its end: eight or
/// more. A packet that carries records breaks such a chain where it ends.
fn begins_chain(header: Header, text: &[u8]) -> bool {
    let mut rest = text;
    let mut before = None;
    for number in 0..MAX_CHAIN {
        let packet = match record_of(header, 0, rest) {
            Ok(Some(packet)) => packet,
            Ok(None) | Err(Fault::TornRecord(_)) => return number >= CHAIN,
            Err(_) => return false,
        };
        if !is_plausible(&packet, before) {
            return false;
        }
        before = Some(packet.sec);
        rest = &rest[RECORD_HEADER_LEN + packet.bytes.len()..];
    }
    true
}

/// How far from the front of a text a record seems to begin: the first place, in the front half,
/// from which on eight whole records or more, up to the end of the text, follow each other that
/// look like those of packets. A guess: no promise rests on it.
pub fn record_start(header: Header, text: &[u8]) -> Option<usize>
    ensures { IfSome result (λ at. at < length text.now) }
{
    for at in 0..text.len() / 2 {
        if begins_chain(header, &text[at..]) {
            return Some(at);
        }
    }
    None
}
