//! Each packet goes out before the source is asked for the next one.

use crate::cut::WHOLE;
use crate::printer::Printer;
use crate::same::same;
use bpfvm::Program;
use cli_answers::PacketForm;
use cli_answers::filter::of_program;
use cli_compare::FilterPair;
use cli_compare::captures::compare_captures;
use cli_explain::captures::explain_captures;
use cli_explain::each::explain_each;
use cli_filter::filter;
use cli_split::part::Part;
use cli_split::split::split;
use pcap_cut::cut::cut;
use savefile::{Counted, Order, Unit};
use std::io;
use std::io::{Read, Write};
use std::process::Abort;
use std::sync::atomic::AtomicU64;
use std::sync::atomic::Ordering::SeqCst;
use test_fixtures::captures::{ARP_RECORD, HEADER, concat};

/// How many bytes a record of an ARP frame has here.
const RECORD: usize = 30;

/// A reader that gives at most as many bytes a call, and counts its calls.
#[derive(Drop)]
struct CallReader<'a> {
    left: &'a [u8],
    calls: &'a AtomicU64,
}

impl Read for CallReader<'_> {
    fn read(&mut self, buf: &mut [u8]) -> io::Result<usize> {
        self.calls.fetch_add(1, SeqCst);
        let n = RECORD.min(buf.len()).min(self.left.len());
        let (front, rest) = self.left.split_at(n);
        buf[..n].copy_from_slice(front);
        self.left = rest;
        Ok(n)
    }
}

/// A writer that keeps how often the reader was called before its writes, each number once.
#[derive(Drop)]
struct CallWriter<'a> {
    calls: &'a AtomicU64,
    seen: Vec<u64>,
}

impl Write for CallWriter<'_> {
    fn write(&mut self, buf: &[u8]) -> io::Result<usize> {
        let calls = self.calls.load(SeqCst);
        if self.seen.as_slice().last() != Some(&calls) {
            self.seen.extend_from_slice(&[calls])?;
        }
        Ok(buf.len())
    }

    fn flush(&mut self) -> io::Result<()> {
        Ok(())
    }
}

/// A capture of three packets. Its header comes with the first call, and each packet with one more.
fn three(rt: &(impl Abort + AllocGlobal)) -> Vec<u8> {
    concat(rt.alloc(), &[HEADER, ARP_RECORD, ARP_RECORD, ARP_RECORD]).expect(rt, "memory")
}

/// The program that accepts all packets.
fn accept_all(rt: &(impl Abort + AllocGlobal)) -> Program {
    filter(rt.alloc(), Some(b"1\n6 0 0 262144\n"), None, 0).expect(rt, "a program")
}

/// The program that rejects all packets.
fn reject_all(rt: &(impl Abort + AllocGlobal)) -> Program {
    filter(rt.alloc(), Some(b"1\n6 0 0 0\n"), None, 0).expect(rt, "a program")
}

/// A capture as the only one of a list.
fn sources_of<'a>(
    rt: &(impl Abort + AllocGlobal),
    capture: &'a [u8],
    calls: &'a AtomicU64,
) -> Vec<Counted<CallReader<'a>>> {
    let mut captures = Vec::new(rt.alloc());
    let left = capture;
    captures
        .push(Counted::new(CallReader { left, calls }))
        .expect(rt, "memory");
    captures
}

fn writer_of<'a>(rt: &impl AllocGlobal, calls: &'a AtomicU64) -> CallWriter<'a> {
    CallWriter {
        calls,
        seen: Vec::new(rt.alloc()),
    }
}

#[test]
fn explain_sends_each_line_before_it_reads_on(rt: HostRuntime) {
    let calls = AtomicU64::new(0);
    let capture = three(&rt);
    let source = Counted::new(CallReader {
        left: capture.as_slice(),
        calls: &calls,
    });
    let mut out = Printer(writer_of(&rt, &calls));
    let filter = of_program(rt.alloc(), accept_all(&rt)).expect(&rt, "memory");
    explain_each(rt.alloc(), source, &filter, PacketForm::Text, &mut out);
    same(&rt, out.0.seen.as_slice(), [2, 3, 4, 5].as_slice());
}

#[test]
fn explain_of_captures_sends_each_line_before_it_reads_on(rt: HostRuntime) {
    let calls = AtomicU64::new(0);
    let capture = three(&rt);
    let captures = sources_of(&rt, capture.as_slice(), &calls);
    let mut out = writer_of(&rt, &calls);
    let filter = of_program(rt.alloc(), accept_all(&rt)).expect(&rt, "memory");
    explain_captures(rt.alloc(), captures, &filter, PacketForm::Text, &mut out);
    same(&rt, out.seen.as_slice(), [2, 3, 4].as_slice());
}

#[test]
fn compare_sends_each_line_before_it_reads_on(rt: HostRuntime) {
    let calls = AtomicU64::new(0);
    let capture = three(&rt);
    let captures = sources_of(&rt, capture.as_slice(), &calls);
    let pair = FilterPair {
        first: of_program(rt.alloc(), accept_all(&rt)).expect(&rt, "memory"),
        second: of_program(rt.alloc(), reject_all(&rt)).expect(&rt, "memory"),
    };
    let mut out = writer_of(&rt, &calls);
    compare_captures(rt.alloc(), captures, &pair, PacketForm::Text, &mut out);
    same(&rt, out.seen.as_slice(), [2, 3, 4].as_slice());
}

#[test]
fn cut_writes_each_packet_before_it_reads_on(rt: HostRuntime) {
    let calls = AtomicU64::new(0);
    let capture = three(&rt);
    let source = Counted::new(CallReader {
        left: capture.as_slice(),
        calls: &calls,
    });
    let sink = Counted::new(writer_of(&rt, &calls));
    let program = accept_all(&rt);
    let end = cut(rt.alloc(), source, &program, WHOLE, sink);
    same(&rt, end.sink.inner.seen.as_slice(), [1, 2, 3, 4].as_slice());
}

#[test]
fn split_writes_each_packet_to_all_before_it_reads_on(rt: HostRuntime) {
    let calls = AtomicU64::new(0);
    let capture = three(&rt);
    let captures = sources_of(&rt, capture.as_slice(), &calls);
    let mut parts = Vec::new(rt.alloc());
    for _ in 0..2 {
        let part = Part {
            program: accept_all(&rt),
            snap: 0,
            sink: Counted::new(writer_of(&rt, &calls)),
        };
        parts.push(part).expect(&rt, "memory");
    }
    let end = split(rt.alloc(), captures, parts, Order::Little, Unit::Micro).expect(&rt, "memory");
    for part in end.parts.iter() {
        same(
            &rt,
            part.sink.inner.seen.as_slice(),
            [1, 2, 3, 4].as_slice(),
        );
    }
}
