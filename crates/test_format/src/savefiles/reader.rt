//! A reader over sources that give their bytes in pieces, and that fail in mid-stream.

use super::{Drip, HEADER_LITTLE_MICRO, TCP_FRAME, dripping, is_text, joined, sevens};
use crate::same::same;
use savefile::{Counted, Fault, Reader, Source};
use std::alloc::Global;
use std::process::Abort;

/// A header and one packet of TCP at second 1.
static ONE_PACKET: [u8; 78] = [
    0xd4, 0xc3, 0xb2, 0xa1, 2, 0, 4, 0, 0, 0, 0, 0, 0, 0, 0, 0, 0, 0, 4, 0, 1, 0, 0, 0, //
    1, 0, 0, 0, 0, 0, 0, 0, 38, 0, 0, 0, 38, 0, 0, 0, //
    0xff, 0xff, 0xff, 0xff, 0xff, 0xff, 0, 1, 2, 3, 4, 5, 8, 0, 0x45, 0, 0, 0x18, 0, 0, 0, 0, 0x40,
    6, 0, 0, 10, 0, 0, 1, 10, 0, 0, 2, 0, 0x35, 0, 0x35,
];

/// A source that gives at most this many bytes a call, and fails at one of its calls.
fn source_of(
    rt: &(impl Abort + AllocGlobal),
    text: &[u8],
    at_once: usize,
    fails_at: usize,
) -> Counted<Drip> {
    let bytes = Vec::from_slice(rt.alloc(), text).expect(rt, "memory");
    dripping(bytes, at_once, fails_at)
}

fn opened<R: Source + Drop>(alloc: Global, source: R) -> Result<Reader<R>, Fault> {
    match Reader::open(alloc, source) {
        Ok(reader) => Ok(reader),
        Err((_source, fault)) => Err(fault),
    }
}

/// What the next call answers: the packet's parts, the end, or the fault.
fn told_next<R: Source>(rt: &(impl Abort + AllocGlobal), reader: &mut Reader<R>) -> String {
    let told = match reader.next(rt.alloc()) {
        Ok(Some(packet)) => format!(in rt.alloc();
            "{}.{:09} {} {:?}",
            packet.sec,
            packet.nanos,
            packet.len,
            packet.bytes.as_slice()
        ),
        Ok(None) => format!(in rt.alloc(); "end"),
        Err(fault) => format!(in rt.alloc(); "{fault}"),
    };
    told.expect(rt, "memory")
}

/// The text of a packet that is lent.
fn told_lent<R: Source>(rt: &(impl Abort + AllocGlobal), reader: &mut Reader<R>) -> String {
    let told = match reader.advance() {
        Ok(true) => {
            let packet = reader.packet();
            format!(in rt.alloc();
                "{}.{:09} {} {:?}",
                packet.sec, packet.nanos, packet.len, packet.bytes
            )
        }
        Ok(false) => format!(in rt.alloc(); "end"),
        Err(fault) => format!(in rt.alloc(); "{fault}"),
    };
    told.expect(rt, "memory")
}

/// A reader over a source that gives at most this many bytes a call, and does not fail.
fn over(rt: &(impl Abort + AllocGlobal), text: &[u8], at_once: usize) -> Reader<Counted<Drip>> {
    opened(rt.alloc(), source_of(rt, text, at_once, 0)).expect(rt, "it is opened")
}

/// The next packet of both readers has this text, owned from the one and lent by the other.
fn both_tell(
    rt: &(impl Abort + AllocGlobal),
    owning: &mut Reader<Counted<Drip>>,
    lending: &mut Reader<Counted<Drip>>,
    want: &str,
) {
    is_text(rt, told_next(rt, owning), want);
    is_text(rt, told_lent(rt, lending), want);
}

/// Both readers give a record, and report once that the other one is torn.
fn both_tell_once(
    rt: &(impl Abort + AllocGlobal),
    owning: &mut Reader<Counted<Drip>>,
    lending: &mut Reader<Counted<Drip>>,
) {
    for want in ["1.000005000 60 [7, 8]", "TornRecord 1", "Failed", "Failed"] {
        both_tell(rt, owning, lending, want);
    }
}

/// A text of a record and a torn one, in pieces of at most this many bytes, gives the one and
/// reports the other once.
fn is_told_once(rt: &(impl Abort + AllocGlobal), text: &[u8], at_once: usize) {
    let mut owning = over(rt, text, at_once);
    let mut lending = over(rt, text, at_once);
    same(rt, owning.header().snap, 262_144);
    both_tell_once(rt, &mut owning, &mut lending);
    same(rt, owning.close().failures, 0);
}

#[test]
fn a_torn_record_header_in_pieces_is_reported_once(rt: HostRuntime) {
    let whole = [1, 0, 0, 0, 5, 0, 0, 0, 2, 0, 0, 0, 60, 0, 0, 0, 7, 8];
    let text = joined(&rt, &[&HEADER_LITTLE_MICRO, &whole, &whole[..7]]);
    for at_once in [1, 5, 7, usize::MAX] {
        is_told_once(&rt, &text, at_once);
    }
}

/// How many calls of a reader gave a packet, up to nine, and what the first other one answered: the
/// end, or the fault.
fn first_without<R: Source>(reader: &mut Reader<R>) -> (u32, Result<bool, Fault>) {
    for packets in 0..9_u32 {
        let advanced = reader.advance();
        if advanced != Ok(true) {
            return (packets, advanced);
        }
    }
    (9, Ok(true))
}

/// What one call after the other answers, up to the first answer without a packet, and that again.
fn fate<R: Source + Drop>(rt: &(impl Abort + AllocGlobal), mut reader: Reader<R>) -> String {
    let (packets, ended) = first_without(&mut reader);
    let again = told_lent(rt, &mut reader);
    let told = match ended {
        Ok(true) => format!(in rt.alloc(); "too many"),
        Ok(false) => format!(in rt.alloc(); "{packets} end {again}"),
        Err(fault) => format!(in rt.alloc(); "{packets} {fault} {again}"),
    };
    told.expect(rt, "memory")
}

fn has_fate<R: Source + Drop>(rt: &(impl Abort + AllocGlobal), source: R, want: &str) {
    let told = match opened(rt.alloc(), source) {
        Ok(reader) => fate(rt, reader),
        Err(fault) => format!(in rt.alloc(); "open {fault}").expect(rt, "memory"),
    };
    is_text(rt, told, want);
}

/// What becomes of a text of one packet of which the first `n` bytes are left.
fn fate_of_part(n: usize) -> &'static str {
    match n {
        0..24 => "open ShortHeader",
        24 => "0 end end",
        25..78 => "0 TornRecord 0 Failed",
        _ => "1 end end",
    }
}

/// A part of a text of one packet has its fate, in one piece and byte by byte.
fn part_has_fate(rt: &(impl Abort + AllocGlobal), part: &[u8], want: &str) {
    has_fate(rt, part, want);
    has_fate(rt, source_of(rt, part, 1, 0), want);
}

#[test]
fn a_text_cut_short_anywhere_is_torn(rt: HostRuntime) {
    for n in 0..79_usize {
        let part = ONE_PACKET.as_slice().get(..n).unwrap_or(&[]);
        part_has_fate(&rt, part, fate_of_part(n));
    }
}

/// What becomes of a source that fails at this call, if each call gives a byte.
fn fate_of_failure(call: usize) -> &'static str {
    match call {
        1..25 => "open Device",
        25..79 => "0 Device Failed",
        _ => "1 Device Failed",
    }
}

#[test]
fn a_source_that_fails_anywhere_is_reported(rt: HostRuntime) {
    for call in 1..80_usize {
        let source = source_of(&rt, ONE_PACKET.as_slice(), 1, call);
        has_fate(&rt, source, fate_of_failure(call));
    }
}

/// A source that fails in the header comes back with what is left of it.
fn comes_back(rt: &(impl Abort + AllocGlobal), source: Counted<Drip>) {
    match Reader::open(rt.alloc(), source) {
        Ok(_reader) => assert!(rt; false),
        Err((source, fault)) => {
            let found = (fault, source.failures, source.inner.place);
            same(rt, found, (Fault::Device, 1, 10));
        }
    }
}

#[test]
fn whole_records_come_before_a_break(rt: HostRuntime) {
    // a header, a record and 3 bytes more in one call, and then a break
    let text = joined(&rt, &[ONE_PACKET.as_slice(), &[1, 0, 0]]);
    has_fate(&rt, source_of(&rt, &text, 81, 2), "1 Device Failed");
    comes_back(&rt, source_of(&rt, &text, 10, 2));
}

/// A record of no bytes, and one of 262,144: the longest that there is, at the end of the reader's
/// memory.
fn longest(rt: &(impl Abort + AllocGlobal)) -> Vec<u8> {
    let header = [2, 0, 0, 0, 0, 0, 0, 0, 0, 0, 4, 0, 5, 0, 0, 0];
    let bytes = sevens(rt, 262_144);
    joined(rt, &[&HEADER_LITTLE_MICRO, &[0; 16], &header, &bytes])
}

/// How many bytes a source gives at once: few, about a record's header, and about the longest
/// record and the reader's memory.
static PIECES: [usize; 17] = [
    1,
    16,
    24,
    39,
    40,
    41,
    4_095,
    65_537,
    262_143,
    262_144,
    262_159,
    262_160,
    262_161,
    524_287,
    524_288,
    524_289,
    usize::MAX,
];

/// The next packet has these fields, and this many sevens.
fn next_has(
    rt: &impl Abort,
    reader: &mut Reader<Counted<Drip>>,
    sec: u32,
    len: u32,
    captured: usize,
) {
    match reader.advance() {
        Ok(true) => {
            let packet = reader.packet();
            let found = (packet.sec, packet.len, packet.bytes.len());
            same(rt, found, (sec, len, captured));
            assert!(rt; packet.bytes.iter().all(|byte| *byte == 7));
        }
        _ => assert!(rt; false),
    }
}

/// A text of the longest records, twice, comes whole in pieces of at most this many bytes.
fn comes_whole(rt: &(impl Abort + AllocGlobal), text: &[u8], at_once: usize) {
    let mut reader = over(rt, text, at_once);
    for _ in 0..2 {
        next_has(rt, &mut reader, 0, 0, 0);
        next_has(rt, &mut reader, 2, 5, 262_144);
    }
    same(
        rt,
        (reader.advance(), reader.advance()),
        (Ok(false), Ok(false)),
    );
}

/// The longest record twice, so that the second comes after what was read ahead.
fn longest_twice(rt: &(impl Abort + AllocGlobal)) -> Vec<u8> {
    let text = longest(rt);
    joined(rt, &[&text, text.as_slice().get(24..).unwrap_or(&[])])
}

#[test]
fn the_longest_record_comes_whole_in_all_pieces(rt: HostRuntime) {
    let text = longest_twice(&rt);
    for at_once in PIECES.iter() {
        comes_whole(&rt, text.as_slice(), *at_once);
    }
}

fn is_sent<T: Send + Drop>(_value: &T) {}

/// A reader of one packet gives it, or breaks because memory runs out and stays broken.
fn gives_or_breaks(rt: &(impl Abort + AllocGlobal), mut reader: Reader<&[u8]>) {
    match reader.next(rt.alloc()) {
        Ok(Some(packet)) => {
            assert!(rt; packet.bytes.as_slice() == TCP_FRAME.as_slice());
            assert!(rt; reader.next(rt.alloc()).is_ok());
        }
        Ok(None) => assert!(rt; false),
        Err(fault) => {
            same(rt, fault, Fault::NoMemory);
            same(rt, reader.advance(), Err(Fault::Failed));
        }
    }
}

/// This one passes too if any one request for memory is refused.
#[test]
fn refused_memory_breaks_a_reader(rt: HostRuntime) {
    match Reader::open(rt.alloc(), ONE_PACKET.as_slice()) {
        Ok(reader) => {
            is_sent(&reader);
            gives_or_breaks(&rt, reader);
        }
        Err((source, fault)) => {
            same(&rt, (fault, source.len()), (Fault::NoMemory, 78));
        }
    }
}
