//! The caller on the crate's page.

use crate::same::same;
use crate::split::{item, text_of};
use bpfvm::Program;
use cli_filter::plan::Plan;
use cli_split::line::line_for;
use cli_split::part::{Part, PartEnd};
use cli_split::plan::{SplitLine, read_plan};
use cli_split::report::EndedSplit;
use cli_split::split::split;
use cli_text::Status;
use line_text::{LineForm, NamingForm};
use savefile::{Counted, Order, Unit};
use std::alloc::Global;
use std::process::Abort;
use test_fixtures::captures::{ARP_RECORD, HEADER, TCP, UDP};

/// A part for each line, which is written into memory.
fn parts_of(
    rt: &(impl Abort + AllocGlobal),
    lines: &[SplitLine<'_>],
    programs: Vec<Program>,
) -> Vec<Part<Counted<Vec<u8>>>> {
    let mut parts = Vec::new(rt.alloc());
    for (line, program) in lines.iter().zip(programs) {
        let sink = Counted::new(Vec::new(rt.alloc()));
        let snap = line.snap;
        parts
            .push(Part {
                program,
                snap,
                sink,
            })
            .expect(rt, "memory");
    }
    parts
}

/// The captures that were written.
fn written_of(
    rt: &(impl Abort + AllocGlobal),
    parts: Vec<PartEnd<Counted<Vec<u8>>>>,
) -> Vec<Vec<u8>> {
    let mut written = Vec::new(rt.alloc());
    for part in parts {
        written.push(part.sink.into_inner()).expect(rt, "memory");
    }
    written
}

/// Lines of text that go to no terminal.
const TEXT: NamingForm = NamingForm {
    form: LineForm::Text,
    is_terminal: false,
};

/// Splits captures in memory as lines ask, and answers what was printed and each capture that was written.
fn split_texts(
    rt: &(impl Abort + AllocGlobal),
    lines: &[u8],
    texts: &[&[u8]],
) -> (Vec<u8>, Vec<Vec<u8>>) {
    let alloc: Global = rt.alloc();
    let Plan { lines, programs } = read_plan(alloc, lines).expect(rt, "each line has its form");
    let parts = parts_of(rt, lines.as_slice(), programs);
    let mut line = line_for(alloc, TEXT, lines.as_slice()).expect(rt, "memory");
    let captures = Vec::from_slice(alloc, texts).expect(rt, "memory");
    let end = split(alloc, captures, parts, Order::Little, Unit::Micro).expect(rt, "memory");
    let (mut out, mut err) = (Vec::new(alloc), Vec::new(alloc));
    let split = EndedSplit {
        captures: &[],
        lines: lines.as_slice(),
        end: &end,
    };
    let status = split.report(TEXT, &mut line, &mut out, &mut err);
    assert_eq!(rt; status, Status::Clean);
    (out, written_of(rt, end.parts))
}

/// The n-th capture that was written is this one.
fn is_written(rt: &(impl Abort + AllocGlobal), written: &[Vec<u8>], n: usize, wanted: &[&str]) {
    let wanted = text_of(rt, wanted);
    same(rt, item(rt, written, n).as_slice(), wanted.as_slice());
}

#[test]
fn captures_are_split_as_the_page_says(rt: HostRuntime) {
    let first = text_of(&rt, &[HEADER, TCP, ARP_RECORD]);
    let second = text_of(&rt, &[HEADER, UDP]);
    let texts = [first.as_slice(), second.as_slice()];
    let (out, written) = split_texts(&rt, b"0 tcp.pcap tcp\n0 ip.pcap ip", &texts);
    let lines = b"tcp.pcap 1 of 3\nip.pcap 2 of 3\n";
    same(&rt, out.as_slice(), lines.as_slice());
    is_written(&rt, written.as_slice(), 0, &[HEADER, TCP]);
    is_written(&rt, written.as_slice(), 1, &[HEADER, TCP, UDP]);
}
