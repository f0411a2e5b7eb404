//! Reports as JSON Lines: an object for each line of their text.

ghost use Rattle.std.specs.Prelude.{◌≡◌, OnOk, Some};
ghost use Rattle.tap_text.specs.Printed.{part_member, message_object, part_object, listener_object};

use line_text::Line;
use listener::Message;
use std::fmt::{Display, Formatter};
use std::{fmt, io};
use tap::Report;

/// A part of a report that has messages.
#[derive(Clone, Copy, Debug, PartialEq, Eq)]
pub enum ReportPart {
    /// A batch that was read, by its number, from 0.
    Batch(usize),
    /// What the buffers hold.
    Held,
}

/// The member that names a part.
#[derive(Clone, Copy)]
struct PartMember(ReportPart);

impl Display for PartMember {
    ghost output = { λ member. Some (part_member member.0) };

    fn fmt<W: fmt::Write>(&self, f: &mut Formatter<W>) -> fmt::Result {
        match self.0 {
            ReportPart::Batch(b) => write!(f, "\"batch\":{b}"),
            ReportPart::Held => f.write_str("\"held\":true"),
        }
    }
}

/// Puts the object of a message in this part of the l-th listener's report in place of what the
/// line has.
pub(crate) fn put_message_object(
    line: &mut Line,
    l: usize,
    part: ReportPart,
    message: &Message,
) -> io::Result<()>
    ensures { OnOk result (line.new ≡ message_object l part message.now) }
{
    line.clear();
    let kept = message.bytes.as_slice().len();
    write!(
        line,
        "{{\"listener\":{l},{},\"capture\":{},\"place\":{}",
        PartMember(part),
        message.capture,
        message.place
    )?;
    writeln!(
        line,
        ",\"seconds\":{},\"nanoseconds\":{},\"length\":{},\"kept\":{kept}}}",
        message.sec, message.nanos, message.len
    )
}

/// Puts the object of a part of the l-th listener's report in place of what the line has.
#[tactic(auto, unfolding(crate::specs::Printed::part_object))]
pub(crate) fn put_part_object(line: &mut Line, l: usize, part: ReportPart) -> io::Result<()>
    ensures { OnOk result (line.new ≡ part_object l part) }
{
    line.clear();
    writeln!(line, "{{\"listener\":{l},{}}}", PartMember(part))
}

/// Puts the object of a listener's counts in place of what the line has.
pub(crate) fn put_listener_object(line: &mut Line, l: usize, report: &Report) -> io::Result<()>
    ensures { OnOk result (line.new ≡ listener_object l report.now) }
{
    line.clear();
    writeln!(
        line,
        "{{\"listener\":{l},\"received\":{},\"matched\":{},\"dropped\":{}}}",
        report.received, report.matched, report.dropped
    )
}
