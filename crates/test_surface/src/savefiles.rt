//! Savefiles: the reader over a slice and over a Source, and the writer.
use crate::common::{HEAD, HEADER, Piped, TCP, counted, joined, same};
use savefile::{
    Broken, Counted, Fault, Header, Order, Packet, Reader, Sink, Source, Unit, Writer, read_all,
};
use std::process::Abort;

/// A reader of texts, over a source that gives so many bytes at so many calls; or why it is none.
fn open(
    rt: &(impl Abort + AllocGlobal),
    texts: &[&str],
    size: usize,
    calls: u32,
) -> Result<Reader<Piped>, Fault> {
    match Reader::open(rt.alloc(), counted(joined(rt, texts), size, calls)) {
        Ok(reader) => Ok(reader),
        Err((_source, fault)) => Err(fault),
    }
}

#[test]
fn a_text_is_read_up_to_its_first_fault(rt: HostRuntime) {
    let zeros = "00000000 00000000 00000000 00000000 00000000 00000000";
    let rows = [
        ("", "", 0, Some(Fault::ShortHeader)),
        (
            "d4c3b2a1 02000400 00000000 00000000 00000400 010000",
            "",
            0,
            Some(Fault::ShortHeader),
        ),
        (zeros, "", 0, Some(Fault::NotSavefile)),
        (
            "d4c3b2a1 03000400 00000000 00000000 00000400 02000000",
            "",
            0,
            Some(Fault::Version),
        ),
        (
            "d4c3b2a1 02000400 00000000 00000000 00000400 02000000",
            "",
            0,
            Some(Fault::LinkType),
        ),
        (HEADER, "", 0, None),
        (
            HEADER,
            "01000000 00000000 02000000 3c000000 aabb 02000000 000000",
            1,
            Some(Fault::TornRecord(1)),
        ),
        (
            HEADER,
            "01000000 40420f00 01000400 00000000",
            0,
            Some(Fault::BadFraction(0)),
        ),
        (HEADER, "01000000 3f420f00 00000000 00000000", 1, None),
        (
            HEADER,
            "01000000 00000000 01000400 00000000",
            0,
            Some(Fault::TooLong(0)),
        ),
        (
            HEADER,
            "01000000 00000000 00000400 00000000",
            0,
            Some(Fault::TornRecord(0)),
        ),
        (HEADER, "01000000 00000000 02000000 01000000 aabb", 1, None),
    ];
    for (header, text, count, want) in rows {
        let file = joined(&rt, &[header, text]);
        let found = match read_all(rt.alloc(), file.as_slice()) {
            Ok((_header, packets, fault)) => (packets.len(), fault),
            Err(fault) => (0, Some(fault)),
        };
        same(&rt, (text, found), (text, (count, want)));
    }
    let short = open(&rt, &["d4c3b2a1"], 1, u32::MAX).err();
    let broken = open(&rt, &[HEADER], 1, 23).err();
    let want = (Some(Fault::ShortHeader), Some(Fault::Device));
    same(&rt, (short, broken), want);
}

/// What a reader gives next: second, nanoseconds and both lengths.
fn next(
    rt: &(impl Abort + AllocGlobal),
    reader: &mut Reader<Piped>,
) -> Result<[u32; 4], Option<Fault>> {
    match reader.next(rt.alloc()) {
        Ok(Some(packet)) => {
            let Packet {
                sec,
                nanos,
                len,
                bytes,
            } = packet;
            Ok([sec, nanos, len, bytes.as_slice().len() as u32])
        }
        Ok(None) => Err(None),
        Err(fault) => Err(Some(fault)),
    }
}

#[test]
fn a_reader_answers_the_same_in_whatever_pieces(rt: HostRuntime) {
    let header = Header {
        order: Order::Little,
        unit: Unit::Micro,
        snap: 262_144,
    };
    let torn = Some(Fault::TornRecord(1));
    let rows = [
        (1, u32::MAX, "02000000 000000", torn),
        (7, u32::MAX, "02000000 000000", torn),
        (usize::MAX, u32::MAX, "02000000 000000", torn),
        (1, 80, "02000000 000000", Some(Fault::Device)),
        (7, u32::MAX, "", None),
    ];
    for (size, calls, rest, end) in rows {
        let texts = [HEADER, HEAD, TCP, rest];
        let mut reader = open(&rt, &texts, size, calls).expect(&rt, "a reader");
        same(&rt, reader.header(), header);
        same(&rt, next(&rt, &mut reader), Ok([1, 0, 38, 38]));
        same(&rt, next(&rt, &mut reader), Err(end));
        let after = end.map(|_| Fault::Failed);
        same(&rt, next(&rt, &mut reader), Err(after));
        let _source = reader.close();
    }
}

#[test]
fn a_writer_writes_each_order_and_unit(rt: HostRuntime) {
    let rows = [
        (
            Order::Little,
            Unit::Micro,
            "d4c3b2a1 02000400 00000000 00000000 60000000 01000000 01000000 3f420f00 02000000 3c000000 aabb",
        ),
        (
            Order::Big,
            Unit::Micro,
            "a1b2c3d4 00020004 00000000 00000000 00000060 00000001 00000001 000f423f 00000002 0000003c aabb",
        ),
        (
            Order::Little,
            Unit::Nano,
            "4d3cb2a1 02000400 00000000 00000000 60000000 01000000 01000000 ffc99a3b 02000000 3c000000 aabb",
        ),
        (
            Order::Big,
            Unit::Nano,
            "a1b23c4d 00020004 00000000 00000000 00000060 00000001 00000001 3b9ac9ff 00000002 0000003c aabb",
        ),
    ];
    for (order, unit, text) in rows {
        let sink = Counted::new(Vec::new(rt.alloc()));
        let (mut writer, opened) = Writer::open(sink, order, unit, 96);
        let put = writer.put(1, 999_999_999, 60, &[0xaa, 0xbb]);
        same(&rt, (opened, put, writer.sent()), (Ok(()), Ok(()), 42));
        let (sink, sent) = writer.close();
        let want = joined(&rt, &[text]);
        let written = sink.into_inner();
        same(&rt, (sent, written.as_slice()), (42, want.as_slice()));
        let header = open(&rt, &[text], 9, u32::MAX)
            .expect(&rt, "a reader")
            .header();
        let found = (header.order, header.unit, header.snap);
        same(&rt, found, (order, unit, 96));
    }
}

#[test]
fn a_stream_that_fails_is_broken_and_then_failed(rt: HostRuntime) {
    let mut to = [0u8; 4];
    let mut source = counted(joined(&rt, &["aabb"]), 9, 2);
    let found = [
        Source::read(&mut source, &mut to),
        Source::read(&mut source, &mut to),
        Source::read(&mut source, &mut to),
    ];
    same(&rt, found, [Ok(2), Ok(0), Err(Broken)]);
    same(&rt, to, [0xaa, 0xbb, 0, 0]);
    let mut sink = counted(Vec::new(rt.alloc()), 0, 1);
    same(&rt, Sink::write(&mut sink, &[1]), Err(Broken));
    let sink = counted(Vec::new(rt.alloc()), 1, 30);
    let (mut writer, opened) = Writer::open(sink, Order::Little, Unit::Micro, 262_144);
    let first = writer.put(1, 0, 60, &[0xaa, 0xbb]);
    let then = writer.put(1, 0, 60, &[0xaa, 0xbb]);
    same(&rt, opened, Ok(()));
    same(&rt, [first, then], [Err(Fault::Device), Err(Fault::Failed)]);
    let (sink, sent) = writer.close();
    let text = joined(&rt, &[HEADER, "01000000 0000"]);
    let taken = sink.into_inner().bytes;
    same(&rt, (sent, taken.as_slice()), (30, text.as_slice()));
}
