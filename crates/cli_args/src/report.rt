//! What is printed for arguments that are refused, and for a call for help.

use clap::Error;
use clap::error::ErrorKind;
use cli_text::Status;
use cli_text::report::{print_status, report_fault, report_output};
use savefile::Fault;
use std::io;
use std::io::Write;

/// Help goes to `out` with status 0, what is wrong with the words to `err` with status 1.
pub fn report_words_fault<O: Write, E: Write>(error: &Error, out: &mut O, err: &mut E) -> Status {
    if error.kind() == ErrorKind::OutOfMemory {
        report_fault(Fault::NoMemory, Status::Refused, err)
    } else if error.use_stderr() {
        let _ = write!(err, "{error}");
        Status::Refused
    } else {
        report_printed(write!(out, "{error}"), err)
    }
}

/// Reports that standard output failed, if it did, and returns the exit status.
fn report_printed<E: Write>(printed: io::Result<()>, err: &mut E) -> Status {
    let _ = report_output(&printed, err);
    print_status(&printed)
}

/// Prints a page of help.
pub fn print_page<O: Write, E: Write>(page: &str, out: &mut O, err: &mut E) -> Status {
    report_printed(write!(out, "{page}"), err)
}
