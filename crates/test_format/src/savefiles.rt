//! Savefiles: what `bpftap cut` does not show of their headers, and devices that fail in
//! mid-stream.

mod caller;
mod reader;

use crate::same::same;
use savefile::{Counted, Data, Fault, Header, Order, Packet, Sink, Unit, Writer, read_all};
use std::fmt::Write as _;
use std::io;
use std::io::{Read, Write};
use std::process::Abort;

/// Little-endian, microseconds, snapshot length 262,144.
const HEADER_LITTLE_MICRO: [u8; 24] = [
    0xd4, 0xc3, 0xb2, 0xa1, 2, 0, 4, 0, 0, 0, 0, 0, 0, 0, 0, 0, 0, 0, 4, 0, 1, 0, 0, 0,
];

/// An IPv4 packet of TCP, without options or data, between two hosts of 10.0.0.0.
const TCP_FRAME: [u8; 38] = [
    0xff, 0xff, 0xff, 0xff, 0xff, 0xff, 0, 1, 2, 3, 4, 5, 8, 0, 0x45, 0, 0, 0x18, 0, 0, 0, 0, 0x40,
    6, 0, 0, 10, 0, 0, 1, 10, 0, 0, 2, 0, 0x35, 0, 0x35,
];

/// The parts, one after the other.
fn joined(rt: &(impl Abort + AllocGlobal), parts: &[&[u8]]) -> Vec<u8> {
    let mut text = Vec::new(rt.alloc());
    for part in parts {
        text.extend_from_slice(part).expect(rt, "memory");
    }
    text
}

/// Adds a packet's parts.
fn push_packet(rt: &(impl Abort + AllocGlobal), out: &mut String, packet: &Packet) {
    let bytes = packet.bytes.as_slice();
    write!(
        out,
        "; {}.{:09} {} {:?}",
        packet.sec, packet.nanos, packet.len, bytes
    )
    .expect(rt, "memory");
}

/// The header, the packets and the fault that ended them.
fn told_read(
    rt: &(impl Abort + AllocGlobal),
    header: Header,
    packets: &[Packet],
    fault: Option<Fault>,
) -> String {
    let mut out = told_header(rt, header);
    for packet in packets {
        push_packet(rt, &mut out, packet);
    }
    if let Some(fault) = fault {
        write!(out, "; {fault}").expect(rt, "memory");
    }
    out
}

fn told_header(rt: &(impl Abort + AllocGlobal), header: Header) -> String {
    let told = format!(in rt.alloc(); "{:?} {:?} {}", header.order, header.unit, header.snap);
    told.expect(rt, "memory")
}

/// What a text is read as: a fault, or the header, the packets and the fault that ended them.
fn told(rt: &(impl Abort + AllocGlobal), text: &[u8]) -> String {
    match read_all(rt.alloc(), text) {
        Ok((header, packets, fault)) => told_read(rt, header, packets.as_slice(), fault),
        Err(fault) => format!(in rt.alloc(); "{fault}").expect(rt, "memory"),
    }
}

/// The parts, one after the other, are read as this.
fn reads(rt: &(impl Abort + AllocGlobal), parts: &[&[u8]], want: &str) {
    let text = joined(rt, parts);
    is_text(rt, told(rt, &text), want);
}

fn is_text(rt: &impl Abort, got: String, want: &str) {
    same(rt, got.as_str(), want);
}

#[test]
fn reserved_fields_and_snapshot_lengths_have_any_content(rt: HostRuntime) {
    let h = &HEADER_LITTLE_MICRO;
    reads(&rt, &[h], "Little Micro 262144");
    reads(
        &rt,
        &[&h[..8], &[1, 2, 3, 4, 5, 6, 7, 8], &[0; 4], &h[20..]],
        "Little Micro 0",
    );
    reads(
        &rt,
        &[&h[..16], &[0xff; 4], &h[20..]],
        "Little Micro 4294967295",
    );
}

fn sevens(rt: &(impl Abort + AllocGlobal), len: usize) -> Vec<u8> {
    vec![in rt.alloc(); 7; len].expect(rt, "memory")
}

/// Puts a packet, whose numbers are in their ranges.
fn put(rt: &impl Abort, writer: &mut Writer<Counted<Vec<u8>>>, packet: (u32, u32, u32, &[u8])) {
    let (sec, nanos, len, bytes) = packet;
    assert!(rt; nanos < 1_000_000_000);
    assert!(rt; bytes.len() <= 262_144);
    writer.put(sec, nanos, len, bytes).expect(rt, "it is put");
}

/// Writes a savefile of one packet into memory.
fn written(
    rt: &(impl Abort + AllocGlobal),
    order: Order,
    unit: Unit,
    snap: u32,
    packet: (u32, u32, u32, &[u8]),
) -> Vec<u8> {
    let memory = Counted::new(Vec::new(rt.alloc()));
    let (mut writer, opened) = Writer::open(memory, order, unit, snap);
    opened.expect(rt, "it is opened");
    put(rt, &mut writer, packet);
    let (sink, _) = writer.close();
    sink.into_inner()
}

/// A savefile of one packet is written as this.
fn writes(
    rt: &(impl Abort + AllocGlobal),
    order: Order,
    unit: Unit,
    snap: u32,
    packet: (u32, u32, u32, &[u8]),
    want: &[u8],
) {
    let got = written(rt, order, unit, snap, packet);
    same(rt, got.as_slice(), want);
}

/// Each form: the header with the greatest snapshot length, and one packet with each field at its
/// greatest.
static GREATEST: [(Order, Unit, [u8; 41], &str); 4] = [
    (
        Order::Little,
        Unit::Micro,
        [
            0xd4, 0xc3, 0xb2, 0xa1, 2, 0, 4, 0, 0, 0, 0, 0, 0, 0, 0, 0, 0xff, 0xff, 0xff, 0xff, 1,
            0, 0, 0, 0xff, 0xff, 0xff, 0xff, 0x3f, 0x42, 0x0f, 0, 1, 0, 0, 0, 0xff, 0xff, 0xff,
            0xff, 7,
        ],
        "Little Micro 4294967295; 4294967295.999999000 4294967295 [7]",
    ),
    (
        Order::Big,
        Unit::Micro,
        [
            0xa1, 0xb2, 0xc3, 0xd4, 0, 2, 0, 4, 0, 0, 0, 0, 0, 0, 0, 0, 0xff, 0xff, 0xff, 0xff, 0,
            0, 0, 1, 0xff, 0xff, 0xff, 0xff, 0, 0x0f, 0x42, 0x3f, 0, 0, 0, 1, 0xff, 0xff, 0xff,
            0xff, 7,
        ],
        "Big Micro 4294967295; 4294967295.999999000 4294967295 [7]",
    ),
    (
        Order::Little,
        Unit::Nano,
        [
            0x4d, 0x3c, 0xb2, 0xa1, 2, 0, 4, 0, 0, 0, 0, 0, 0, 0, 0, 0, 0xff, 0xff, 0xff, 0xff, 1,
            0, 0, 0, 0xff, 0xff, 0xff, 0xff, 0xff, 0xc9, 0x9a, 0x3b, 1, 0, 0, 0, 0xff, 0xff, 0xff,
            0xff, 7,
        ],
        "Little Nano 4294967295; 4294967295.999999999 4294967295 [7]",
    ),
    (
        Order::Big,
        Unit::Nano,
        [
            0xa1, 0xb2, 0x3c, 0x4d, 0, 2, 0, 4, 0, 0, 0, 0, 0, 0, 0, 0, 0xff, 0xff, 0xff, 0xff, 0,
            0, 0, 1, 0xff, 0xff, 0xff, 0xff, 0x3b, 0x9a, 0xc9, 0xff, 0, 0, 0, 1, 0xff, 0xff, 0xff,
            0xff, 7,
        ],
        "Big Nano 4294967295; 4294967295.999999999 4294967295 [7]",
    ),
];

#[test]
fn each_form_is_read_and_written_at_its_limits(rt: HostRuntime) {
    let packet = (u32::MAX, 999_999_999, u32::MAX, [7].as_slice());
    for (order, unit, text, want) in GREATEST.iter() {
        reads(&rt, &[text.as_slice()], want);
        writes(&rt, *order, *unit, u32::MAX, packet, text.as_slice());
    }
}

#[test]
fn each_field_is_read_and_written_at_zero(rt: HostRuntime) {
    let zeros = [
        0x4d, 0x3c, 0xb2, 0xa1, 2, 0, 4, 0, 0, 0, 0, 0, 0, 0, 0, 0, 0, 0, 0, 0, 1, 0, 0, 0, 0, 0,
        0, 0, 0, 0, 0, 0, 0, 0, 0, 0, 0, 0, 0, 0,
    ];
    reads(&rt, &[&zeros], "Little Nano 0; 0.000000000 0 []");
    let packet = (0, 0, 0, [].as_slice());
    writes(&rt, Order::Little, Unit::Nano, 0, packet, &zeros);
}

/// A device that moves few bytes a call, and fails at one of its calls.
#[derive(Drop)]
struct Drip {
    bytes: Vec<u8>,
    place: usize,
    at_once: usize,
    calls: usize,
    fails_at: usize,
}

impl Drip {
    fn fails_now(&mut self) -> bool {
        self.calls = self.calls.wrapping_add(1);
        self.calls == self.fails_at
    }
}

impl Read for Drip {
    fn read(&mut self, to: &mut [u8]) -> io::Result<usize> {
        if self.fails_now() {
            return Err(io::Error::from(io::ErrorKind::Interrupted));
        }
        let left = self.bytes.get(self.place..).unwrap_or(&[]);
        let n = left.len().min(self.at_once).min(to.len());
        to[..n].copy_from_slice(&left[..n]);
        self.place = self.place.wrapping_add(n);
        Ok(n)
    }
}

impl Write for Drip {
    fn write(&mut self, from: &[u8]) -> io::Result<usize> {
        if self.fails_now() {
            return Err(io::Error::from(io::ErrorKind::Interrupted));
        }
        let n = from.len().min(self.at_once);
        self.bytes.extend_from_slice(&from[..n])?;
        Ok(n)
    }

    fn flush(&mut self) -> io::Result<()> {
        Ok(())
    }
}

fn dripping(bytes: Vec<u8>, at_once: usize, fails_at: usize) -> Counted<Drip> {
    Counted::new(Drip {
        bytes,
        place: 0,
        at_once,
        calls: 0,
        fails_at,
    })
}

/// Putting a packet returns this, and this many bytes were sent then.
fn puts(rt: &impl Abort, writer: &mut Writer<Counted<Drip>>, want: Result<(), Fault>, sent: u64) {
    same(rt, writer.put(1, 0, 38, &TCP_FRAME), want);
    same(rt, writer.sent(), sent);
}

/// A sink that failed in a record's header, and how many bytes its writer says that it took.
fn broken_in_a_record(rt: &(impl Abort + AllocGlobal)) -> (Counted<Drip>, u64) {
    let sink = dripping(Vec::new(rt.alloc()), 1, 31);
    let (mut writer, opened) = Writer::open(sink, Order::Little, Unit::Micro, 262_144);
    same(rt, opened, Ok(()));
    puts(rt, &mut writer, Err(Fault::Device), 30);
    puts(rt, &mut writer, Err(Fault::Failed), 30);
    writer.close()
}

/// A sink that fails in a record's header has what comes before it, and gets nothing more.
fn fails_in_a_record(rt: &(impl Abort + AllocGlobal)) {
    let (sink, sent) = broken_in_a_record(rt);
    same(rt, (sent, sink.failures), (30, 1));
    let text = joined(rt, &[&HEADER_LITTLE_MICRO, &[1, 0, 0, 0, 0, 0]]);
    same(rt, sink.inner.bytes.as_slice(), text.as_slice());
}

/// A writer whose sink fails in the file's header, with this many bytes sent, takes no packet.
fn fails_in_the_header(
    rt: &(impl Abort + AllocGlobal),
    at_once: usize,
    fails_at: usize,
    order: Order,
    unit: Unit,
    sent: u64,
) {
    let sink = dripping(Vec::new(rt.alloc()), at_once, fails_at);
    let (mut writer, opened) = Writer::open(sink, order, unit, 0);
    same(rt, opened, Err(Fault::Device));
    same(rt, writer.sent(), sent);
    puts(rt, &mut writer, Err(Fault::Failed), sent);
}

/// No byte taken of none is no failure.
fn takes_none(rt: &(impl Abort + AllocGlobal)) {
    let mut sink = dripping(Vec::new(rt.alloc()), 5, 9);
    same(rt, (sink.write(&[]), sink.failures), (Ok(0), 0));
}

#[test]
fn a_failed_sink_has_what_was_sent(rt: HostRuntime) {
    fails_in_a_record(&rt);
    fails_in_the_header(&rt, 5, 3, Order::Little, Unit::Micro, 10);
    // a sink that takes nothing
    fails_in_the_header(&rt, 0, 9, Order::Big, Unit::Nano, 0);
    takes_none(&rt);
}

static FAULTS: [(Fault, &str); 11] = [
    (Fault::ShortHeader, "ShortHeader"),
    (Fault::NotSavefile, "NotSavefile"),
    (Fault::Version, "Version"),
    (Fault::LinkType, "LinkType"),
    (Fault::TornRecord(4), "TornRecord 4"),
    (Fault::BadFraction(0), "BadFraction 0"),
    (Fault::TooLong(u64::MAX), "TooLong 18446744073709551615"),
    (Fault::NoMemory, "NoMemory"),
    (Fault::Device, "Device"),
    (Fault::Failed, "Failed"),
    (Fault::CountFull, "CountFull"),
];

#[test]
fn faults_are_reported_by_name_and_place(rt: HostRuntime) {
    for (fault, want) in FAULTS.iter() {
        let text = format!(in rt.alloc(); "{fault}").expect(&rt, "memory");
        is_text(&rt, text, want);
    }
}

/// These are the time and the length of the packet below, and its bytes.
fn are_its(rt: &impl Abort, numbers: (u32, u32, u32), bytes: &[u8]) {
    same(rt, numbers, (1, 2, 60));
    assert!(rt; bytes == TCP_FRAME.as_slice());
}

/// This one passes too if any one request for memory is refused.
#[test]
fn a_packet_is_lent_and_copied(rt: HostRuntime) {
    if let Ok(bytes) = Vec::from_slice(rt.alloc(), &TCP_FRAME) {
        is_lent_and_copied(&rt, bytes);
    }
}

fn is_lent_and_copied(rt: &(impl Abort + AllocGlobal), bytes: Vec<u8>) {
    let packet = Packet {
        sec: 1,
        nanos: 2,
        len: 60,
        bytes: Data::new(bytes),
    };
    let lent = packet.as_ref();
    are_its(rt, (lent.sec, lent.nanos, lent.len), lent.bytes);
    if let Ok(copy) = lent.to_packet(rt.alloc()) {
        let bytes = copy.bytes.as_slice();
        are_its(rt, (copy.sec, copy.nanos, copy.len), bytes);
    }
}

/// A header, two records of two bytes, and a third without its last byte.
const TORN: [u8; 77] = [
    0xd4, 0xc3, 0xb2, 0xa1, 2, 0, 4, 0, 0, 0, 0, 0, 0, 0, 0, 0, 0, 0, 4, 0, 1, 0, 0, 0, //
    1, 0, 0, 0, 0, 0, 0, 0, 2, 0, 0, 0, 2, 0, 0, 0, 7, 8, //
    2, 0, 0, 0, 0, 0, 0, 0, 2, 0, 0, 0, 2, 0, 0, 0, 7, 8, //
    3, 0, 0, 0, 0, 0, 0, 0, 2, 0, 0, 0, 2, 0, 0, 0, 7,
];

/// Each packet has these bytes.
fn have_two_bytes(rt: &impl Abort, packets: &[Packet]) {
    for packet in packets {
        same(rt, packet.bytes.as_slice(), [7, 8].as_slice());
    }
}

/// This one passes too if any one request for memory is refused.
#[test]
fn refused_memory_is_named(rt: HostRuntime) {
    match read_all(rt.alloc(), &TORN) {
        Ok((_, packets, fault)) => {
            same(&rt, (packets.len(), fault), (2, Some(Fault::TornRecord(2))));
            have_two_bytes(&rt, packets.as_slice());
        }
        Err(fault) => same(&rt, fault, Fault::NoMemory),
    }
}
