//! Files that are opened and made when they are needed first, over a made system.

use crate::same::same;
use crate::system::{NONE, System, TORN, Table};
use cli_files::late::{LateFile, LateInput};
use cli_files::paths::{Opening, refuse_shared_files, report_path};
use cli_files::streams::reserve_streams;
use cli_text::Status;
use std::fs::Files;
use std::io::{Read, Write};
use std::process::Abort;
use std::sync::atomic::Ordering::SeqCst;

/// Makes OUT, and looks where it went.
fn make_out<R: Files>(rt: &impl Abort, system: &R, table: &Table) {
    let mut file = LateFile::new(system, "out.pcap");
    same(rt, file.write(b"a").ok(), Some(1));
    let output = table.output.load(SeqCst);
    assert!(rt; output > 2 && output != NONE, "OUT is descriptor {output}");
}

/// Makes an OUT with these streams open, while the numbers of the others are held.
fn make_over(rt: &impl Abort, open: [bool; 3]) {
    let table = Table::new(open);
    let system = System { table: &table };
    let streams = reserve_streams(&system);
    assert!(rt; streams.is_ok());
    make_out(rt, &system, &table);
}

#[test]
fn no_file_takes_the_place_of_a_closed_stream(rt: HostRuntime) {
    for input in [false, true] {
        for output in [false, true] {
            make_over(&rt, [input, output, false]);
            make_over(&rt, [input, output, true]);
        }
    }
}

#[test]
fn the_first_stream_that_cannot_be_kept_is_named(rt: HostRuntime) {
    let table = Table::new([false; 3]);
    table.refused.store(1, SeqCst);
    let system = System { table: &table };
    let mut err: Vec<u8> = Vec::new(rt.alloc());
    match reserve_streams(&system) {
        Ok(_) => assert!(rt; false, "the streams are kept"),
        Err(fault) => same(&rt, report_path(&fault, &mut err), Status::Failed),
    }
    same(&rt, err.as_slice(), b"bpftap: Device /dev/stdin\n");
}

/// Reads the capture to its end, and looks that it came whole.
fn read_whole<R: Files>(rt: &impl Abort, system: &R) {
    let mut input = LateInput::new(system, "in.pcap");
    let mut taken = [0; 64];
    let first = input.read(&mut taken).ok();
    same(rt, first, Some(TORN.len()));
    assert!(rt; taken.starts_with(TORN));
    same(rt, input.read(&mut taken).ok(), Some(0));
}

#[test]
fn a_signal_breaks_no_read(rt: HostRuntime) {
    let table = Table::new([true; 3]);
    let system = System { table: &table };
    read_whole(&rt, &system);
}

/// A path of which the system does not say what is there ends all.
fn ends_untold(rt: &(impl Abort + AllocGlobal), table: &Table) {
    let system = (System { table }, rt.alloc());
    let mut err: Vec<u8> = Vec::new(rt.alloc());
    let read = ["all.bpf", "in.pcap"];
    let ended = refuse_shared_files(
        &system,
        Opening::First,
        None,
        &read,
        &["out.pcap"],
        &mut err,
    );
    let line = b"bpftap: Device all.bpf\n";
    same(
        rt,
        (ended, err.as_slice()),
        (Err(Status::Failed), line.as_slice()),
    );
}

#[test]
fn nothing_is_made_if_a_path_is_unknown(rt: HostRuntime) {
    let table = Table::new([true; 3]);
    table.is_told.store(false, SeqCst);
    ends_untold(&rt, &table);
    let made = (table.output.load(SeqCst), table.calls.load(SeqCst));
    same(&rt, made, (NONE, 0));
}

/// This many bytes are taken, or none if the write fails.
fn writes(rt: &impl Abort, file: &mut impl Write, bytes: &[u8], wanted: Option<usize>) {
    same(rt, file.write(bytes).ok(), wanted);
}

/// Writes a file of which the next call to be made is refused, and looks that no further one is.
fn fail_once<R: Files>(rt: &impl Abort, system: &R, table: &Table, is_made: bool) {
    let mut file = LateFile::new(system, "out.pcap");
    if is_made {
        writes(rt, &mut file, b"a", Some(1));
    }
    let before = table.calls.load(SeqCst);
    table.refused.store(1, SeqCst);
    let takes_nothing = table.takes_nothing.load(SeqCst);
    writes(rt, &mut file, b"b", takes_nothing.then_some(0));
    writes(rt, &mut file, b"c", None);
    assert!(rt; file.flush().is_err());
    same(rt, table.calls.load(SeqCst), before.wrapping_add(1));
}

fn fails_over(rt: &impl Abort, is_made: bool, takes_nothing: bool) {
    let table = Table::new([false; 3]);
    table.takes_nothing.store(takes_nothing, SeqCst);
    let system = System { table: &table };
    fail_once(rt, &system, &table, is_made);
}

#[test]
fn a_file_that_failed_is_not_touched_again(rt: HostRuntime) {
    // The call that makes the file is refused; or the one that writes it, or that one takes
    // nothing.
    fails_over(&rt, false, false);
    fails_over(&rt, true, false);
    fails_over(&rt, true, true);
}
