//! `explain` over files in memory: what standard output has, the status, and that no file changes.

use crate::in_memory::files_of;
use crate::same::{same, same_in};
use cli_args::explain::ExplainWords;
use cli_args::places::PlaceRange;
use cli_explain::command::explain_and_report;
use cli_store::MemoryFiles;
use cli_text::Status;
use savefile::MAX_SNAP;
use std::process::Abort;

/// The lines of the capture of an ARP frame and an IPv4 frame by `ip`.
const ARP_LINE: &str = "place 0 time 1.000000000 len 14 captured 14 No ip\n";

const IP_LINE: &str = "place 1 time 2.000000000 len 14 captured 14 Yes ip\n";

/// The words of `explain -e EXPR IN..`, or of `explain -f ip.bpf IN..`.
fn words_of<R: Abort + AllocGlobal>(
    rt: &R,
    expr: Option<&'static str>,
    inputs: &[&'static str],
) -> ExplainWords<'static> {
    ExplainWords {
        snap: MAX_SNAP,
        expr,
        listing: if expr.is_some() { None } else { Some("ip.bpf") },
        places: None,
        quiet: false,
        json: false,
        inputs: Vec::from_slice(rt.alloc(), inputs).expect(rt, "memory"),
    }
}

/// `explain` ends with this status, and prints this; what standard error has are these lines.
fn explains<R: Abort + AllocGlobal>(
    rt: &R,
    files: &mut MemoryFiles<'static>,
    words: &ExplainWords<'static>,
    wanted: (Status, &str, &str),
) {
    let mut out: Vec<u8> = Vec::new(rt.alloc());
    let mut err: Vec<u8> = Vec::new(rt.alloc());
    let status = explain_and_report(rt.alloc(), files, words, &mut out, &mut err);
    let (ended, printed, lines) = wanted;
    same(rt, status, ended);
    same_in(rt, "printed", out.as_slice(), printed.as_bytes());
    same_in(rt, "reported", err.as_slice(), lines.as_bytes());
    same(rt, files.files.len(), 3);
    same(rt, files.pending, 0);
}

/// A text of these lines.
fn text_of<R: Abort + AllocGlobal>(rt: &R, lines: &[&str]) -> String {
    let mut text = String::new(rt.alloc());
    for line in lines {
        text.push_str(*line).expect(rt, "memory");
    }
    text
}

#[test]
fn each_packet_has_a_line(rt: HostRuntime) {
    let mut files = files_of(&rt);
    let lines = [ARP_LINE, IP_LINE, "2 packets: 1 Yes, 1 No, 0 Abort\n"];
    let text = text_of(&rt, &lines);
    let words = words_of(&rt, Some("ip"), &["in.pcap"]);
    explains(&rt, &mut files, &words, (Status::Clean, text.as_str(), ""));
}

#[test]
fn a_listing_is_read_from_its_file(rt: HostRuntime) {
    let mut files = files_of(&rt);
    let wanted = "place 0 time 1.000000000 len 14 captured 14 No 0 at 3: ret #0
place 1 time 2.000000000 len 14 captured 14 Yes 262144 at 2: ret #262144
2 packets: 1 Yes, 1 No, 0 Abort\n";
    let words = words_of(&rt, None, &["in.pcap"]);
    explains(&rt, &mut files, &words, (Status::Clean, wanted, ""));
}

#[test]
fn several_captures_are_read_to_the_first_fault(rt: HostRuntime) {
    let mut files = files_of(&rt);
    let lines = [
        ARP_LINE,
        IP_LINE,
        ARP_LINE,
        "3 packets: 1 Yes, 2 No, 0 Abort\n",
    ];
    let text = text_of(&rt, &lines);
    let words = words_of(&rt, Some("ip"), &["in.pcap", "torn.pcap", "in.pcap"]);
    let fault = "bpftap: Capture 1 TornRecord 1\n";
    explains(
        &rt,
        &mut files,
        &words,
        (Status::Damaged, text.as_str(), fault),
    );
}

#[test]
fn a_capture_that_is_not_there_has_failed(rt: HostRuntime) {
    let mut files = files_of(&rt);
    let lines = [ARP_LINE, IP_LINE, "2 packets: 1 Yes, 1 No, 0 Abort\n"];
    let text = text_of(&rt, &lines);
    let words = words_of(&rt, Some("ip"), &["in.pcap", "none.pcap"]);
    let fault = "bpftap: Device none.pcap\n";
    explains(
        &rt,
        &mut files,
        &words,
        (Status::Failed, text.as_str(), fault),
    );
    same(&rt, files.failed, true);
}

#[test]
fn only_the_status_answers(rt: HostRuntime) {
    let mut files = files_of(&rt);
    let mut words = words_of(&rt, Some("ip"), &["in.pcap", "torn.pcap"]);
    words.quiet = true;
    explains(&rt, &mut files, &words, (Status::Clean, "", ""));
    words.expr = Some("tcp");
    let fault = "bpftap: Capture 1 TornRecord 1\n";
    explains(&rt, &mut files, &words, (Status::Damaged, "", fault));
}

#[test]
fn a_place_without_a_packet_is_refused_in_each_capture(rt: HostRuntime) {
    let mut files = files_of(&rt);
    let mut words = words_of(&rt, Some("ip"), &["in.pcap", "in.pcap"]);
    words.places = Some(PlaceRange { first: 7, last: 7 });
    let faults = "bpftap: NoPacket 7\n  in.pcap\nbpftap: NoPacket 7\n  in.pcap\n";
    explains(&rt, &mut files, &words, (Status::Refused, "", faults));
}

#[test]
fn a_packet_in_full_is_an_object_of_its_capture(rt: HostRuntime) {
    let mut files = files_of(&rt);
    let mut words = words_of(&rt, Some("len > 20 or arp"), &["in.pcap", "in.pcap"]);
    words.json = true;
    words.places = Some(PlaceRange { first: 0, last: 0 });
    let members =
        "{\"capture\":0,\"place\":0,\"seconds\":1,\"nanoseconds\":0,\"length\":14,\"captured\":14,\"answer\":\"yes\",\"decided\":\"arp\",\"bytes\":\"ffffffffffff0001020304050806\",\"expression\":\"len > 20 or arp\",\"asked\":[{\"test\":\"len > 20\",\"answer\":\"no\",\"length\":14,\"bytes\":[]},{\"test\":\"arp\",\"answer\":\"yes\",\"bytes\":[{\"offset\":12,\"size\":2,\"value\":2054,\"field\":\"ethertype\"}]}],\"unasked\":[],\"run\":{\"instructions\":";
    let mut out: Vec<u8> = Vec::new(rt.alloc());
    let mut err: Vec<u8> = Vec::new(rt.alloc());
    let status = explain_and_report(rt.alloc(), &mut files, &words, &mut out, &mut err);
    same(&rt, status, Status::Clean);
    assert!(rt; out.starts_with(members.as_bytes()));
}

#[test]
fn what_is_refused_prints_nothing(rt: HostRuntime) {
    let mut files = files_of(&rt);
    let mut words = words_of(&rt, Some("ip +"), &["in.pcap"]);
    let fault = "bpftap: Syntax 3\n";
    explains(&rt, &mut files, &words, (Status::Refused, "", fault));
    words.expr = Some("ip");
    words.listing = Some("ip.bpf");
    let fault = "bpftap: FilterTwice\n";
    explains(&rt, &mut files, &words, (Status::Refused, "", fault));
    words.expr = None;
    words.listing = Some("none.bpf");
    let fault = "bpftap: Device none.bpf\n";
    explains(&rt, &mut files, &words, (Status::Failed, "", fault));
}

#[test]
fn a_file_that_is_read_is_not_printed_over(rt: HostRuntime) {
    let mut files = files_of(&rt);
    files.printed = Some("in.pcap");
    let words = words_of(&rt, Some("ip"), &["in.pcap"]);
    let fault = "bpftap: SameFile in.pcap\n";
    explains(&rt, &mut files, &words, (Status::Refused, "", fault));
    files.printed = Some("ip.bpf");
    let words = words_of(&rt, None, &["in.pcap"]);
    let fault = "bpftap: SameFile ip.bpf\n";
    explains(&rt, &mut files, &words, (Status::Refused, "", fault));
}
