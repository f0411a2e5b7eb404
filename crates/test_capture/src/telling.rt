//! How lines go out, and what is reported of arguments that cannot be taken.

ghost use Rattle.line_text.specs.declared.form.LineForm.TheVariants.{Text};

use crate::same::same;
use cli_cut::print::check;
use cli_cut::report::report_print;
use cli_text::Status;
use cli_text::report::report_words;
use fault_report::reporting::{report_device, report_fault, report_in};
use fault_report::{FaultSink, Report, Word};
use line_text::LineForm;
use line_text::sending::send;
use std::io;
use std::io::{ErrorKind, Write};
use std::process::Abort;

/// A writer that has room for this many bytes, then breaks, and counts its calls.
#[derive(Drop)]
struct BreakingCounter {
    room: usize,
    calls: usize,
}

impl Write for BreakingCounter {
    fn write(&mut self, buf: &[u8]) -> io::Result<usize> {
        self.calls = self.calls.saturating_add(1);
        let n = self.room.min(buf.len());
        if n == 0 {
            return Err(io::Error::from(ErrorKind::Other));
        }
        self.room -= n;
        Ok(n)
    }

    fn flush(&mut self) -> io::Result<()> {
        Ok(())
    }
}

impl FaultSink for BreakingCounter {
    ghost fault_form = { λ _. Text };

    fn fault_form(&self) -> LineForm {
        LineForm::Text
    }

    fn tell(&mut self, fault: &Report<'_>) {
        let _ = report_in(LineForm::Text, fault, self);
    }

    fn tell_line(&mut self, line: &[u8]) -> io::Result<()> {
        send(line, self)
    }
}

/// A writer of this much room leaves the status, and nothing is printed.
fn leaves_the_status(rt: &(impl Abort + AllocGlobal), room: usize) {
    let mut out: Vec<u8> = Vec::new(rt.alloc());
    let mut err = BreakingCounter { room, calls: 0 };
    let checked = check(rt.alloc(), "tcp and 80", &mut out);
    same(
        rt,
        (room, report_print(&checked, &mut err), out.len()),
        (room, Status::Refused, 0),
    );
}

#[test]
fn a_line_that_is_not_taken_leaves_the_status(rt: HostRuntime) {
    for room in [0, 3, 21] {
        leaves_the_status(&rt, room);
    }
}

/// Three lines go out in three writes; the last one names a path.
fn go_out(rt: &impl Abort, path: &str) {
    let mut err = BreakingCounter {
        room: 1024,
        calls: 0,
    };
    let torn = Report::placed("TornRecord", Word::Number(1));
    same(
        rt,
        report_fault(&torn, Status::Damaged, &mut err),
        Status::Damaged,
    );
    same(rt, report_device("in.pcap", &mut err), Status::Failed);
    same(rt, report_device(path, &mut err), Status::Failed);
    same(rt, err.calls, 3);
}

#[test]
fn a_line_goes_out_in_one_write(rt: HostRuntime) {
    // The longest line of which this holds has 512 bytes.
    let path = "x".repeat(rt.alloc(), 496).expect(&rt, "memory");
    go_out(&rt, path.as_str());
}

#[test]
fn arguments_that_cannot_be_taken_are_reported(rt: HostRuntime) {
    let mut err: Vec<u8> = Vec::new(rt.alloc());
    let refused = io::Error::from(ErrorKind::OutOfMemory);
    same(&rt, report_words(refused, &mut err), Status::Refused);
    same(&rt, err.as_slice(), b"bpftap: NoMemory\n".as_slice());
}
