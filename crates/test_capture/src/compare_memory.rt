//! `compare` over files in memory: what standard output has, the status, what OUT has, and that no
//! other file changes.

use crate::in_memory::files_of;
use crate::same::{same, same_in};
use cli_args::compare::CompareWords;
use cli_compare::command::compare_and_report;
use cli_store::{Endurance, MemoryFiles};
use cli_text::Status;
use cli_watch::Screen;
use savefile::MAX_SNAP;
use std::process::Abort;

/// The lines of the capture of an ARP frame and an IPv4 frame by `ip` and `arp`.
const BOTH_LINES: &str = "place 0 time 1.000000000 len 14 captured 14 first No ip second Yes arp
place 1 time 2.000000000 len 14 captured 14 first Yes ip second No arp
2 packets: 2 differ, 1 accepted by the first alone, 1 by the second\n";

/// The words of `compare EXPR1 EXPR2 IN..`, or of `compare -f ip.bpf EXPR1 IN..`.
fn words_of<R: Abort + AllocGlobal>(
    rt: &R,
    first: &'static str,
    second: Option<&'static str>,
    inputs: &[&'static str],
) -> CompareWords<'static> {
    CompareWords {
        snap: MAX_SNAP,
        first,
        second,
        listing: if second.is_some() {
            None
        } else {
            Some("ip.bpf")
        },
        quiet: false,
        json: false,
        output: None,
        inputs: Vec::from_slice(rt.alloc(), inputs).expect(rt, "memory"),
    }
}

/// `compare` ends with this status, prints this, and leaves this many files; what standard error has
/// are these lines.
fn compares<R: Abort + AllocGlobal + Screen>(
    rt: &R,
    files: &mut MemoryFiles<'static>,
    words: &CompareWords<'static>,
    wanted: (Status, &str, &str, usize),
) {
    let mut out: Vec<u8> = Vec::new(rt.alloc());
    let mut err: Vec<u8> = Vec::new(rt.alloc());
    files.opened.clear();
    let status = compare_and_report(rt, files, words, &mut out, &mut err);
    let (ended, printed, lines, count) = wanted;
    same(rt, status, ended);
    same_in(rt, "printed", out.as_slice(), printed.as_bytes());
    same_in(rt, "reported", err.as_slice(), lines.as_bytes());
    same(rt, files.files.len(), count);
    same(rt, files.pending, 0);
}

#[test]
fn each_packet_that_differs_has_a_line(rt: HostRuntime) {
    let mut files = files_of(&rt);
    let words = words_of(&rt, "ip", Some("arp"), &["in.pcap"]);
    compares(&rt, &mut files, &words, (Status::Clean, BOTH_LINES, "", 3));
}

#[test]
fn the_second_filter_is_the_listing(rt: HostRuntime) {
    let mut files = files_of(&rt);
    let line =
        "place 1 time 2.000000000 len 14 captured 14 first Abort tcp, byte 23 is not captured second Yes 262144 at 2: ret #262144
2 packets: 1 differ, 0 accepted by the first alone, 1 by the second\n";
    let words = words_of(&rt, "tcp", None, &["in.pcap"]);
    compares(&rt, &mut files, &words, (Status::Clean, line, "", 3));
}

#[test]
fn captures_are_read_to_the_first_fault(rt: HostRuntime) {
    let mut files = files_of(&rt);
    let line = "place 0 time 1.000000000 len 14 captured 14 first No ip second Yes arp
1 packets: 1 differ, 0 accepted by the first alone, 1 by the second\n";
    let words = words_of(&rt, "ip", Some("arp"), &["torn.pcap", "in.pcap"]);
    let fault = "bpftap: Capture 0 TornRecord 1\n";
    compares(&rt, &mut files, &words, (Status::Damaged, line, fault, 3));
    let words = words_of(&rt, "ip", Some("arp"), &["none.pcap"]);
    let fault = "bpftap: Device none.pcap\n";
    compares(&rt, &mut files, &words, (Status::Failed, "", fault, 3));
}

#[test]
fn only_the_status_answers(rt: HostRuntime) {
    let mut files = files_of(&rt);
    let mut words = words_of(&rt, "ip", Some("arp"), &["in.pcap"]);
    words.quiet = true;
    compares(&rt, &mut files, &words, (Status::Negative, "", "", 3));
    words.second = Some("ether[12:2] = 0x800");
    compares(&rt, &mut files, &words, (Status::Clean, "", "", 3));
}

#[test]
fn what_is_refused_prints_nothing(rt: HostRuntime) {
    let mut files = files_of(&rt);
    let mut words = words_of(&rt, "ip +", Some("arp"), &["in.pcap"]);
    let fault = "bpftap: Syntax 3\n  EXPR1:\n";
    compares(&rt, &mut files, &words, (Status::Refused, "", fault, 3));
    words.first = "ip";
    words.second = Some("arp +");
    let fault = "bpftap: Syntax 4\n  EXPR2:\n";
    compares(&rt, &mut files, &words, (Status::Refused, "", fault, 3));
    words.second = None;
    words.listing = Some("none.bpf");
    let fault = "bpftap: Device none.bpf\n";
    compares(&rt, &mut files, &words, (Status::Failed, "", fault, 3));
}

#[test]
fn a_file_that_is_read_is_neither_printed_over_nor_written(rt: HostRuntime) {
    let mut files = files_of(&rt);
    files.printed = Some("in.pcap");
    let words = words_of(&rt, "ip", Some("arp"), &["in.pcap"]);
    let fault = "bpftap: SameFile in.pcap\n";
    compares(&rt, &mut files, &words, (Status::Refused, "", fault, 3));
    files.printed = Some("ip.bpf");
    let mut words = words_of(&rt, "arp", None, &[]);
    let fault = "bpftap: SameFile ip.bpf\n";
    compares(&rt, &mut files, &words, (Status::Refused, "", fault, 3));
    files.printed = None;
    words.output = Some("ip.bpf");
    compares(&rt, &mut files, &words, (Status::Refused, "", fault, 3));
}

/// OUT has a packet that the filters treat differently: they do if they are compared by it.
#[test]
fn out_has_the_packet_that_differs(rt: HostRuntime) {
    let mut files = files_of(&rt);
    let mut words = words_of(&rt, "ip", Some("arp"), &[]);
    words.quiet = true;
    words.output = Some("out.pcap");
    compares(&rt, &mut files, &words, (Status::Negative, "", "", 4));
    let mut words = words_of(&rt, "ip", Some("arp"), &["out.pcap"]);
    words.quiet = true;
    compares(&rt, &mut files, &words, (Status::Negative, "", "", 4));
}

#[test]
fn filters_that_are_the_same_have_no_out(rt: HostRuntime) {
    let mut files = files_of(&rt);
    let mut words = words_of(&rt, "ip", None, &[]);
    words.output = Some("out.pcap");
    compares(&rt, &mut files, &words, (Status::Clean, "same\n", "", 3));
}

/// An OUT that can't be made, and one that can't be written to.
#[test]
fn an_out_that_fails_is_named(rt: HostRuntime) {
    let mut words = words_of(&rt, "ip", Some("arp"), &[]);
    words.quiet = true;
    words.output = Some("out.pcap");
    let fault = "bpftap: Device out.pcap\n";
    for calls in 1..3 {
        let mut files = files_of(&rt);
        files.endurance = Endurance {
            calls,
            ..Endurance::MAX
        };
        compares(&rt, &mut files, &words, (Status::Failed, "", fault, 3));
    }
    let mut files = files_of(&rt);
    files.endurance = Endurance {
        writes: 0,
        ..Endurance::MAX
    };
    compares(&rt, &mut files, &words, (Status::Failed, "", fault, 3));
}
