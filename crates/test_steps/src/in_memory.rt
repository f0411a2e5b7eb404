//! `steps` over files in memory: what is printed, and what files there are after it.

use crate::same::same;
use cli_args::steps::StepsWords;
use cli_steps::files::steps_files;
use cli_steps::outcome::StepsRefusal;
use cli_store::{FileStore, MemoryFile, MemoryFiles};
use cli_text::Status;
use std::process::Abort;
use test_fixtures::captures::{ARP_RECORD, HEADER, IP_RECORD, concat};

/// What is printed of the packets of `in.pcap`, which nobody reads: the second one does not fit
/// beside the first.
const REPORT: &[u8] = b"listener 0 received 2 matched 2 dropped 0\nheld\n\
    capture 0 place 0 time 1.000000000 len 14 kept 14\ncapture 0 place 1 time 2.000000000 len 14 kept 14\n";

/// A file of these bytes.
fn file_of<R: Abort + AllocGlobal>(
    rt: &R,
    path: &'static str,
    bytes: &[u8],
) -> MemoryFile<'static> {
    let bytes = Vec::from_slice(rt.alloc(), bytes).expect(rt, "memory");
    MemoryFile { path, bytes }
}

/// LISTENERS of one listener, a SCRIPT of two arrivals, one with a bad line, a capture of an ARP
/// frame and an IPv4 frame, and one of none.
fn files_of<R: Abort + AllocGlobal>(rt: &R) -> MemoryFiles<'static> {
    let whole = concat(rt.alloc(), &[HEADER, ARP_RECORD, IP_RECORD]).expect(rt, "memory");
    let none = concat(rt.alloc(), &[HEADER]).expect(rt, "memory");
    let files = [
        file_of(rt, "l.txt", b"32 128\n"),
        file_of(rt, "s.txt", b"arrive\narrive\n"),
        file_of(rt, "bad.txt", b"arrives\n"),
        file_of(rt, "in.pcap", whole.as_slice()),
        file_of(rt, "none.pcap", none.as_slice()),
    ];
    let mut found = MemoryFiles::new(rt.alloc());
    found.files = Vec::from_array(rt.alloc(), files).expect(rt, "memory");
    found
}

/// The words of `steps LISTENERS s.txt IN..`, with `-p` if there is a picture.
fn words_of<R: Abort + AllocGlobal>(
    rt: &R,
    script: &'static str,
    picture: Option<&'static str>,
    inputs: &[&'static str],
) -> StepsWords<'static> {
    StepsWords {
        explained: false,
        picture,
        json: false,
        listeners: "l.txt",
        script,
        inputs: Vec::from_slice(rt.alloc(), inputs).expect(rt, "memory"),
    }
}

/// Words that are played end clean and print this, and no file is left open.
fn plays<R: Abort + AllocGlobal>(
    rt: &R,
    files: &mut MemoryFiles<'static>,
    words: &StepsWords<'static>,
    wanted: &[u8],
) {
    let mut out: Vec<u8> = Vec::new(rt.alloc());
    files.opened.clear();
    let report = steps_files(rt.alloc(), files, words, &mut out).ok();
    let report = report.expect(rt, "it is played");
    same(rt, report.status, Status::Clean);
    same(rt, report.drawn.is_ok(), true);
    same(rt, out.as_slice(), wanted);
    same(rt, files.pending, 0);
}

/// Words that are refused print nothing, and make and lose no file.
fn refusal_of<R: Abort + AllocGlobal>(
    rt: &R,
    files: &mut MemoryFiles<'static>,
    words: &StepsWords<'static>,
) -> StepsRefusal<'static> {
    let mut out: Vec<u8> = Vec::new(rt.alloc());
    files.opened.clear();
    let refusal = steps_files(rt.alloc(), files, words, &mut out).err();
    same(rt, out.len(), 0);
    same(rt, (files.files.len(), files.pending), (5, 0));
    refusal.expect(rt, "it is refused")
}

#[test]
fn reports_are_printed_and_no_file_changes(rt: HostRuntime) {
    let mut files = files_of(&rt);
    let words = words_of(&rt, "s.txt", None, &["in.pcap"]);
    plays(&rt, &mut files, &words, REPORT);
    same(&rt, files.files.len(), 5);
}

#[test]
fn captures_are_read_in_order(rt: HostRuntime) {
    let mut files = files_of(&rt);
    let words = words_of(&rt, "s.txt", None, &["none.pcap", "in.pcap"]);
    let wanted = b"listener 0 received 2 matched 2 dropped 0\nheld\n\
        capture 1 place 0 time 1.000000000 len 14 kept 14\ncapture 1 place 1 time 2.000000000 len 14 kept 14\n";
    plays(&rt, &mut files, &words, wanted);
}

#[test]
fn a_picture_is_the_only_file_that_is_made(rt: HostRuntime) {
    let mut files = files_of(&rt);
    let words = words_of(&rt, "s.txt", Some("steps.svg"), &["in.pcap"]);
    plays(&rt, &mut files, &words, REPORT);
    same(&rt, files.files.len(), 6);
    let picture = files
        .read("steps.svg", usize::MAX)
        .expect(&rt, "it was drawn");
    assert!(&rt; picture.as_slice().starts_with(b"<svg"));
    assert!(&rt; picture.as_slice().ends_with(b"</svg>\n"));
}

#[test]
fn refusals_print_nothing_and_change_no_file(rt: HostRuntime) {
    let mut files = files_of(&rt);
    let words = words_of(&rt, "bad.txt", None, &["in.pcap"]);
    let refusal = refusal_of(&rt, &mut files, &words);
    assert!(&rt; matches!(refusal, StepsRefusal::Line(_, _, _)));
    let words = words_of(&rt, "s.txt", None, &["in.pcap", "gone.pcap"]);
    let refusal = refusal_of(&rt, &mut files, &words);
    assert!(&rt; matches!(refusal, StepsRefusal::File("gone.pcap", _)));
    let words = words_of(&rt, "s.txt", Some("in.pcap"), &["in.pcap"]);
    let refusal = refusal_of(&rt, &mut files, &words);
    assert!(&rt; matches!(refusal, StepsRefusal::Paths(_)));
    files.printed = Some("in.pcap");
    let words = words_of(&rt, "s.txt", None, &["in.pcap"]);
    let refusal = refusal_of(&rt, &mut files, &words);
    assert!(&rt; matches!(refusal, StepsRefusal::Paths(_)));
}
