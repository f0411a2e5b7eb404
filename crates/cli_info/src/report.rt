//! What is printed and reported of a capture, and the exit status.

ghost use Rattle.std.specs.Prelude.{◌≡◌, ◌++◌, IfOk, OnOk, string_bytes};
ghost use Rattle.line_text.specs.Sending.{Takes};
ghost use Rattle.cli_text.specs.Telling.{fault_status};
ghost use Rattle.cli_info.specs.Reports.{line_in, survey_status};

use crate::line::put_rest_of_line;
use crate::object::put_object;
use cli_text::Status;
use cli_text::report::fault_status;
use fault_report::FaultSink;
use fault_report::reporting::report_device;
use line_text::sending::send;
use line_text::{LineForm, NamingForm};
use pcap_info::survey::CaptureSurvey;
use savefile::Fault;
use std::alloc::{AllocError, Global};
use std::io;
use std::io::{ErrorKind, Write};

/// The line of the capture at a path.
fn line_of<R>(
    alloc: Global,
    path: &str,
    survey: &CaptureSurvey<R>,
    form: NamingForm,
) -> Result<String, AllocError>
    ensures { IfOk result (λ line. string_bytes line ≡ line_in form path.now survey.now.header survey.now.contents survey.now.read) }
{
    let mut line = String::new(alloc);
    match form.form {
        LineForm::Text => {
            write!(line, "{}", form.named(path))?;
            put_rest_of_line(&mut line, survey)?;
        }
        LineForm::Json => put_object(&mut line, path, survey)?,
    }
    Ok(line)
}

/// Prints the line of the capture at a path: the path, on a terminal without what would control it,
/// and then [`put_rest_of_line`], or [`put_object`].
///
/// The error is that of `out`, which took a prefix of the line; or `OutOfMemory`, and then it took
/// nothing.
pub fn print_survey<R, O: Write>(
    alloc: Global,
    path: &str,
    survey: &CaptureSurvey<R>,
    form: NamingForm,
    out: &mut O,
) -> io::Result<()>
    ensures { Takes (O.contents out.old) (O.contents out.new) result (line_in form path.now survey.now.header survey.now.contents survey.now.read) }
{
    match line_of(alloc, path, survey, form) {
        Ok(line) => send(line.as_bytes(), out),
        Err(AllocError) => Err(io::Error::from(ErrorKind::OutOfMemory)),
    }
}

/// Reports a capture whose file failed, and returns the exit status of the survey. Any other fault
/// is in the line that is printed.
pub fn report_survey<R, E: FaultSink>(survey: &CaptureSurvey<R>, path: &str, err: &mut E) -> Status
    ensures { result ≡ survey_status survey.now.read }
{
    match survey.read {
        Ok(()) => Status::Clean,
        Err(Fault::Device) => report_device(path, err),
        Err(fault) => fault_status(fault),
    }
}
