//! `cut` and `check` over files in memory: what there is before and after.

use crate::same::{same, same_in};
use cli_args::check::CheckWords;
use cli_args::cut::CutWords;
use cli_cut::checking::check_files;
use cli_cut::command::{cut_and_report, cut_several_and_report};
use cli_store::{Endurance, FileStore, MemoryFile, MemoryFiles};
use cli_text::Status;
use savefile::{MAX_SNAP, Order, Unit};
use std::process::Abort;
use test_fixtures::captures::{ARP_RECORD, HEADER, IP_RECORD, concat};

/// The listing of `ip`.
const LISTING: &[u8] = b"4\n40 0 0 12\n21 0 1 2048\n6 0 0 262144\n6 0 0 0\n";

/// A file of these bytes.
fn file_of<R: Abort + AllocGlobal>(
    rt: &R,
    path: &'static str,
    bytes: &[u8],
) -> MemoryFile<'static> {
    let bytes = Vec::from_slice(rt.alloc(), bytes).expect(rt, "memory");
    MemoryFile { path, bytes }
}

/// A capture of an ARP frame and an IPv4 frame, one whose record is torn, and a listing.
pub(crate) fn files_of<R: Abort + AllocGlobal>(rt: &R) -> MemoryFiles<'static> {
    let whole = concat(rt.alloc(), &[HEADER, ARP_RECORD, IP_RECORD]).expect(rt, "memory");
    let (_, torn) = whole.as_slice().split_last().expect(rt, "it has bytes");
    let files = [
        file_of(rt, "in.pcap", whole.as_slice()),
        file_of(rt, "torn.pcap", torn),
        file_of(rt, "ip.bpf", LISTING),
    ];
    MemoryFiles {
        alloc: rt.alloc(),
        files: Vec::from_array(rt.alloc(), files).expect(rt, "memory"),
        opened: Vec::new(rt.alloc()),
        printed: None,
        pending: 0,
        failed: false,
        denied: None,
        endurance: Endurance::MAX,
    }
}

/// The words of `cut -s 0 -e EXPR IN out.pcap`, or of `cut -s 0 -f LISTING ..`.
fn words_of<R: Abort + AllocGlobal>(
    rt: &R,
    expr: Option<&'static str>,
    listing: Option<&'static str>,
    input: &'static str,
    output: &'static str,
) -> CutWords<'static> {
    CutWords {
        snap: MAX_SNAP,
        listing,
        expr,
        order: Order::Little,
        unit: Unit::Micro,
        counted: false,
        json: false,
        bytes: None,
        inputs: Vec::from_slice(rt.alloc(), &[input]).expect(rt, "memory"),
        output,
    }
}

/// A cut ends with this status and this line, and leaves this many files, none of them open.
fn cuts<R: Abort + AllocGlobal>(
    rt: &R,
    files: &mut MemoryFiles<'static>,
    words: &CutWords<'static>,
    input: &'static str,
    wanted: (Status, &str, usize),
) {
    let mut err: Vec<u8> = Vec::new(rt.alloc());
    files.opened.clear();
    let reported = cut_and_report(rt.alloc(), files, words, input, &mut err);
    let (ended, line, count) = wanted;
    same(rt, reported.status, ended);
    same_in(rt, line, err.as_slice(), line.as_bytes());
    same(rt, files.files.len(), count);
    same(rt, files.pending, 0);
}

/// A cut of several captures ends with this status and this line, and leaves this many files, none
/// of them open.
fn cuts_all<R: Abort + AllocGlobal>(
    rt: &R,
    files: &mut MemoryFiles<'static>,
    words: &CutWords<'static>,
    wanted: (Status, &str, usize),
) {
    let mut err: Vec<u8> = Vec::new(rt.alloc());
    files.opened.clear();
    let reported = cut_several_and_report(rt.alloc(), files, words, &mut err);
    let (ended, line, count) = wanted;
    same(rt, reported.status, ended);
    same_in(rt, line, err.as_slice(), line.as_bytes());
    same(rt, files.files.len(), count);
    same(rt, files.pending, 0);
}

/// The file at a path has these bytes.
fn has<R: Abort + AllocGlobal>(
    rt: &R,
    files: &mut MemoryFiles<'static>,
    path: &'static str,
    hex: &[&str],
) {
    let wanted = concat(rt.alloc(), hex).expect(rt, "memory");
    let found = files.read(path, usize::MAX).expect(rt, "it is there");
    same_in(rt, path, found.as_slice(), wanted.as_slice());
}

#[test]
fn out_has_the_packets_of_the_expression(rt: HostRuntime) {
    let mut files = files_of(&rt);
    let words = words_of(&rt, Some("ip"), None, "in.pcap", "out.pcap");
    cuts(&rt, &mut files, &words, "in.pcap", (Status::Clean, "", 4));
    has(&rt, &mut files, "out.pcap", &[HEADER, IP_RECORD]);
    has(&rt, &mut files, "in.pcap", &[HEADER, ARP_RECORD, IP_RECORD]);
}

#[test]
fn out_has_the_packets_of_the_listing(rt: HostRuntime) {
    let mut files = files_of(&rt);
    let words = words_of(&rt, None, Some("ip.bpf"), "in.pcap", "out.pcap");
    cuts(&rt, &mut files, &words, "in.pcap", (Status::Clean, "", 4));
    has(&rt, &mut files, "out.pcap", &[HEADER, IP_RECORD]);
}

#[test]
fn out_has_what_comes_before_a_torn_record(rt: HostRuntime) {
    let mut files = files_of(&rt);
    let words = words_of(&rt, None, None, "torn.pcap", "out.pcap");
    let wanted = (Status::Damaged, "bpftap: TornRecord 1\n", 4);
    cuts(&rt, &mut files, &words, "torn.pcap", wanted);
    has(&rt, &mut files, "out.pcap", &[HEADER, ARP_RECORD]);
}

/// Nothing is made, and the line says why.
fn is_refused<R: Abort + AllocGlobal>(
    rt: &R,
    words: &CutWords<'static>,
    input: &'static str,
    status: Status,
    line: &str,
) {
    let mut files = files_of(rt);
    cuts(rt, &mut files, words, input, (status, line, 3));
}

#[test]
fn an_out_that_is_read_is_refused(rt: HostRuntime) {
    let words = words_of(&rt, Some("ip"), None, "in.pcap", "in.pcap");
    is_refused(
        &rt,
        &words,
        "in.pcap",
        Status::Refused,
        "bpftap: SameFile in.pcap\n",
    );
    let words = words_of(&rt, None, Some("ip.bpf"), "in.pcap", "ip.bpf");
    is_refused(
        &rt,
        &words,
        "in.pcap",
        Status::Refused,
        "bpftap: SameFile ip.bpf\n",
    );
}

#[test]
fn what_is_not_there_is_refused(rt: HostRuntime) {
    let words = words_of(&rt, Some("ip"), None, "none.pcap", "none.pcap");
    is_refused(
        &rt,
        &words,
        "none.pcap",
        Status::Failed,
        "bpftap: Device none.pcap\n",
    );
    let words = words_of(&rt, None, Some("none.bpf"), "in.pcap", "out.pcap");
    is_refused(
        &rt,
        &words,
        "in.pcap",
        Status::Failed,
        "bpftap: Device none.bpf\n",
    );
}

#[test]
fn a_filter_that_is_none_is_refused(rt: HostRuntime) {
    let words = words_of(&rt, Some("ip and"), None, "in.pcap", "out.pcap");
    is_refused(
        &rt,
        &words,
        "in.pcap",
        Status::Refused,
        "bpftap: Syntax 6\n",
    );
    let words = words_of(&rt, None, Some("in.pcap"), "in.pcap", "out.pcap");
    is_refused(
        &rt,
        &words,
        "in.pcap",
        Status::Refused,
        "bpftap: BadByte 1\n",
    );
    let words = words_of(&rt, Some("ip"), Some("ip.bpf"), "in.pcap", "out.pcap");
    is_refused(
        &rt,
        &words,
        "in.pcap",
        Status::Refused,
        "bpftap: FilterTwice\n",
    );
}

#[test]
fn a_listing_is_not_printed_over(rt: HostRuntime) {
    let mut files = files_of(&rt);
    files.printed = Some("ip.bpf");
    let words = CheckWords {
        expr: None,
        listing: Some("ip.bpf"),
        snap: MAX_SNAP,
        named: 0,
        read: false,
        json: false,
    };
    let mut out: Vec<u8> = Vec::new(rt.alloc());
    same(
        &rt,
        check_files(rt.alloc(), &mut files, &words, &mut out).is_err(),
        true,
    );
    files.printed = None;
    same(
        &rt,
        check_files(rt.alloc(), &mut files, &words, &mut out).is_ok(),
        true,
    );
    same_in(&rt, "out", out.as_slice(), LISTING);
}

/// The words of `cut -s 0 -e ip -w out.pcap in.pcap in.pcap`.
fn twice<R: Abort + AllocGlobal>(rt: &R) -> CutWords<'static> {
    let mut words = words_of(rt, Some("ip"), None, "in.pcap", "out.pcap");
    words.inputs = Vec::from_slice(rt.alloc(), &["in.pcap", "in.pcap"]).expect(rt, "memory");
    words
}

#[test]
fn out_has_the_packets_of_all_captures(rt: HostRuntime) {
    let mut files = files_of(&rt);
    cuts_all(&rt, &mut files, &twice(&rt), (Status::Clean, "", 4));
    has(&rt, &mut files, "out.pcap", &[HEADER, IP_RECORD, IP_RECORD]);
    has(&rt, &mut files, "in.pcap", &[HEADER, ARP_RECORD, IP_RECORD]);
}

/// Files whose n-th call fails, from 0.
fn failing_at<R: Abort + AllocGlobal>(rt: &R, calls: usize) -> MemoryFiles<'static> {
    let mut files = files_of(rt);
    files.endurance = Endurance {
        calls,
        ..Endurance::MAX
    };
    files
}

/// The paths are compared, IN is opened, OUT is made, OUT is closed: each of these calls fails
/// once, and no file changes.
#[test]
fn each_call_of_a_cut_fails(rt: HostRuntime) {
    let words = words_of(&rt, Some("ip"), None, "in.pcap", "out.pcap");
    let lines = [
        "bpftap: Device out.pcap\n",
        "bpftap: Device in.pcap\n",
        "bpftap: Device out.pcap\n",
        "bpftap: Device out.pcap\n",
    ];
    for (calls, line) in lines.iter().enumerate() {
        let mut files = failing_at(&rt, calls);
        let wanted = (Status::Failed, *line, 3);
        cuts(&rt, &mut files, &words, "in.pcap", wanted);
        has(&rt, &mut files, "in.pcap", &[HEADER, ARP_RECORD, IP_RECORD]);
    }
}

/// The same of two captures, each of which is opened in a call of its own.
#[test]
fn each_call_of_a_cut_of_several_fails(rt: HostRuntime) {
    let words = twice(&rt);
    let lines = [
        "bpftap: Device out.pcap\n",
        "bpftap: Device in.pcap\n",
        "bpftap: Device in.pcap\n",
        "bpftap: Device out.pcap\n",
        "bpftap: Device out.pcap\n",
    ];
    for (calls, line) in lines.iter().enumerate() {
        let mut files = failing_at(&rt, calls);
        cuts_all(&rt, &mut files, &words, (Status::Failed, *line, 3));
        has(&rt, &mut files, "in.pcap", &[HEADER, ARP_RECORD, IP_RECORD]);
    }
}

/// A capture that can't be read once, and an OUT that can't be written to once.
#[test]
fn devices_that_break_leave_no_out(rt: HostRuntime) {
    let words = words_of(&rt, Some("ip"), None, "in.pcap", "out.pcap");
    let mut files = files_of(&rt);
    files.endurance = Endurance {
        reads: 0,
        ..Endurance::MAX
    };
    let wanted = (Status::Failed, "bpftap: Device in.pcap\n", 3);
    cuts(&rt, &mut files, &words, "in.pcap", wanted);
    let mut files = files_of(&rt);
    files.endurance = Endurance {
        writes: 0,
        ..Endurance::MAX
    };
    let wanted = (Status::Failed, "bpftap: Device out.pcap\n", 3);
    cuts(&rt, &mut files, &words, "in.pcap", wanted);
}
