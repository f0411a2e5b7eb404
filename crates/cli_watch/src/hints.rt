//! What is reported of frames that no filter looks into.

ghost use Rattle.std.specs.Prelude.{◌≡◌, ◌≢◌, ◌<◌, [], IfOk, true};
ghost use Rattle.line_text.specs.declared.form.LineForm.TheVariants.{Json};
ghost use Rattle.line_text.specs.Sending.{Takes};
ghost use Rattle.cli_text.specs.declared.status.Status.TheVariants.{Failed, Refused};
ghost use Rattle.fault_report.specs.Reports.{TellsMore};
ghost use Rattle.cli_watch.specs.Unseen.{unseen_json};

use crate::frames::FrameCounts;
use cli_report::stream::print_below;
use cli_text::Status;
use fault_report::FaultSink;
use line_text::{Line, LineForm};
use std::fmt::{Display, Formatter};
use std::{fmt, io};

/// Whether an expression asks anything of a packet: the empty one does not.
pub fn is_asked(expr: &str) -> bool
    ensures { result ≡ true → expr.now ≢ [] }
{
    !expr.trim().is_empty()
}

/// How many of the frames no filter looks into, and the way to a program that does.
#[derive(Clone, Copy)]
struct UnseenText(FrameCounts);

impl Display for UnseenText {
    fn fmt<W: fmt::Write>(&self, f: &mut Formatter<W>) -> fmt::Result {
        let FrameCounts { frames, unseen } = self.0;
        let are = if unseen == 1 { "is" } else { "are" };
        write!(
            f,
            "{unseen} of {frames} frames {are} IPv6 or VLAN: filters here do not look inside; with libpcap's program they do, into VLAN by 'EXPR or (vlan and (EXPR))': tcpdump -y EN10MB -ddd EXPR > f.bpf, then -f f.bpf"
        )
    }
}

/// The object of frames that no filter looks into.
#[tactic(auto, unfolding(crate::specs::Unseen::unseen_json))]
fn unseen_object(counts: FrameCounts) -> io::Result<Line>
    ensures { IfOk result (λ line. line ≡ unseen_json counts) }
{
    let mut line = Line::new();
    writeln!(
        line,
        "{{\"frames\":{},\"unseen\":{}}}",
        counts.frames, counts.unseen
    )?;
    Ok(line)
}

/// Reports IPv6 and VLAN, below what a command printed that asked an expression: how many of the
/// frames are these, and the way to a program that looks inside; with `--json` an object
/// `{"frames":5258,"unseen":336}`. If there are none, or if the command was refused or failed with
/// this status, it reports nothing. The error is that of standard error, which took a prefix.
pub fn report_unseen<E: FaultSink>(
    counts: FrameCounts,
    status: Status,
    err: &mut E,
) -> io::Result<()>
    ensures none { counts.unseen ≡ 0 → err.new ≡ err.old }
    ensures refused { status ≡ Refused → err.new ≡ err.old }
    ensures failed { status ≡ Failed → err.new ≡ err.old }
    ensures object { 0 < counts.unseen → status ≢ Refused → status ≢ Failed → E.fault_form err.old ≡ Json →
        Takes (E.contents err.old) (E.contents err.new) result (unseen_json counts) }
    ensures more { TellsMore E.takes_hints E.failed E.contents E.fault_form err.old err.new }
{
    if counts.unseen == 0 || status == Status::Refused || status == Status::Failed {
        return Ok(());
    }
    match err.fault_form() {
        LineForm::Text => print_below(UnseenText(counts), err),
        LineForm::Json => {
            let line = unseen_object(counts)?;
            err.tell_line(line.as_bytes())
        }
    }
}
