//! The line of a listener as an object of JSON.

ghost use Rattle.std.specs.Prelude.{◌≡◌, OnOk, Some};
ghost use Rattle.cli_run.specs.Printed.{end_members, listener_object};

use line_text::Line;
use replay_types::{ListenerReport, TaskEnd};
use std::fmt::{Display, Formatter};
use std::{fmt, io};

/// How the writing of a listener's packets ended, as members.
#[derive(Clone, Copy)]
struct EndMembers(TaskEnd);

impl Display for EndMembers {
    ghost output = { λ end. Some (end_members end.0) };

    fn fmt<W: fmt::Write>(&self, f: &mut Formatter<W>) -> fmt::Result {
        match self.0 {
            TaskEnd::Clean => f.write_str("\"end\":\"clean\""),
            TaskEnd::Write(bytes) => write!(f, "\"end\":\"write\",\"bytes\":{bytes}"),
            TaskEnd::Unfinished => f.write_str("\"end\":\"unfinished\""),
        }
    }
}

/// Puts the object of the l-th listener of the i-th interface in place of what the line has.
pub(crate) fn put_listener_object<W>(
    line: &mut Line,
    i: usize,
    l: usize,
    report: &ListenerReport<W>,
) -> io::Result<()>
    ensures { OnOk result (line.new ≡ listener_object i l report.now) }
{
    line.clear();
    write!(
        line,
        "{{\"interface\":{i},\"listener\":{l},\"received\":{},\"matched\":{}",
        report.received, report.matched
    )?;
    writeln!(
        line,
        ",\"dropped\":{},\"written\":{},{}}}",
        report.dropped,
        report.written,
        EndMembers(report.end)
    )
}
