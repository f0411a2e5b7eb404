//! What is reported of files that can't be read, and of arguments that are refused.

use crate::same::same;
use clap::Error;
use cli_args::report::report_words_fault;
use cli_files::reading::report_io;
use cli_text::Status;
use std::alloc::AllocError;
use std::io;
use std::io::ErrorKind;
use std::process::Abort;

/// Checks what is reported of a path that can't be read, and the status.
fn is_told(
    rt: &(impl Abort + AllocGlobal),
    error: io::Error,
    path: &str,
    line: &str,
    status: Status,
) {
    let mut err: Vec<u8> = Vec::new(rt.alloc());
    let found = report_io(&error, path, &mut err);
    same(rt, (err.as_slice(), found), (line.as_bytes(), status));
}

#[test]
fn refused_memory_is_reported_by_its_name(rt: HostRuntime) {
    is_told(
        &rt,
        io::Error::from(ErrorKind::OutOfMemory),
        "in.pcap",
        "bpftap: NoMemory\n",
        Status::Refused,
    );
}

/// The system's number for memory that it lacks.
const ENOMEM: i32 = 12;

#[test]
fn memory_that_the_system_lacks_is_a_fault_of_the_file(rt: HostRuntime) {
    is_told(
        &rt,
        io::Error::from_raw_os_error(ENOMEM),
        "in.pcap",
        "bpftap: Device in.pcap\n",
        Status::Failed,
    );
}

#[test]
fn refused_memory_for_the_arguments_is_reported_by_its_name(rt: HostRuntime) {
    let mut out: Vec<u8> = Vec::new(rt.alloc());
    let mut err: Vec<u8> = Vec::new(rt.alloc());
    let status = report_words_fault(&Error::from(AllocError), &mut out, &mut err);
    same(
        &rt,
        (err.as_slice(), status),
        (b"bpftap: NoMemory\n".as_slice(), Status::Refused),
    );
    assert!(rt; out.is_empty());
}

#[test]
fn control_characters_of_a_path_are_escaped(rt: HostRuntime) {
    let line = "bpftap: Device a\\n\\u{1b}[1mé b\n";
    is_told(
        &rt,
        io::Error::from(ErrorKind::NotFound),
        "a\n\u{1b}[1mé b",
        line,
        Status::Failed,
    );
}
