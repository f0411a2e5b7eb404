//! What is reported of files that can't be read.

ghost use Rattle.std.specs.Prelude.{◌≡◌, ◌↔◌, ◌⊎◌, ◌≤◌, IfOk, IfErr, IsTrue, vec_len};
ghost use Rattle.cli_text.specs.declared.status.Status.TheVariants.{Failed, Refused};
ghost use Rattle.cli_text.specs.Telling.{print_status_of};
ghost use Rattle.fault_report.specs.Reports.{IsNoMemory, TellsMore, TellsOne};
ghost use Rattle.cli_files.specs.Reading.{IsFileReport, IsLongTextReport, IsRefusedMemory};

use crate::retried::Retried;
use cli_report::HintSink;
use cli_report::files::hint_reason;
use cli_report::stream::give_hint;
use cli_text::Status;
use cli_text::report::EscapedPath;
use fault_report::Report;
use fault_report::reporting::{report_device, report_fault, report_memory, report_output};
use std::fs::Files;
use std::io::{ErrorKind, Read};
use std::{fs, io};

/// How many bytes a LISTING, LINES, LISTENERS or SCRIPT has at most.
pub const MAX_TEXT: usize = 1 << 24;

/// Whether memory was refused to this program. An error that the system gave for a file has a
/// number, even if it is that of memory (`ENOMEM`).
fn is_refused_memory(error: &io::Error) -> bool
    ensures { IsTrue result ↔ IsRefusedMemory error.now }
{
    error.kind() == ErrorKind::OutOfMemory && error.raw_os_error().is_none()
}

/// Reports that a file could not be opened or read, or that memory was refused.
pub fn report_io<E: HintSink>(error: &io::Error, path: &str, err: &mut E) -> Status
    ensures refused { IsRefusedMemory error.now → result ≡ Refused }
    ensures failed { (IsRefusedMemory error.now → ⊥) → result ≡ Failed }
    ensures told { TellsOne E.takes_hints E.failed E.contents E.fault_form (IsFileReport error.now path.entry) err.old err.new }
{
    if is_refused_memory(error) {
        report_memory(err)
    } else {
        let status = report_device(path, err);
        hint_reason(error, err);
        status
    }
}

/// Reports that memory for what is printed was refused, or that standard output failed, if one did;
/// returns the exit status of printing. If nobody reads what is printed any more, it reports nothing.
pub fn report_printed<E: HintSink>(printed: &io::Result<()>, err: &mut E) -> Status
    ensures refused { IfErr printed.now (λ error. IsRefusedMemory error → result ≡ Refused) }
    ensures no_memory { IfErr printed.now (λ error. IsRefusedMemory error → TellsOne E.takes_hints E.failed E.contents E.fault_form IsNoMemory err.old err.new) }
    ensures printed { IfOk printed.now (λ _. result ≡ print_status_of printed.now) }
    ensures failed { IfErr printed.now (λ error. (IsRefusedMemory error → ⊥) → result ≡ print_status_of printed.now) }
    ensures more { TellsMore E.takes_hints E.failed E.contents E.fault_form err.old err.new }
{
    match printed {
        Err(error) if is_refused_memory(error) => report_memory(err),
        _ => report_output(printed, err),
    }
}

/// The bytes of a file; or reports why there are none, and returns the exit status.
pub fn read_file<R: Files + AllocGlobal, E: HintSink>(
    rt: &R,
    path: &str,
    err: &mut E,
) -> Result<Vec<u8>, Status>
    ensures { IfErr result (λ status. (status ≡ Refused) ⊎ (status ≡ Failed)) }
{
    match fs::read(rt, path) {
        Ok(text) => Ok(text),
        Err(error) => Err(report_io(&error, path, err)),
    }
}

/// The bytes of a text, but no more than one above [`MAX_TEXT`].
fn read_bounded<R: Files + AllocGlobal>(rt: &R, path: &str) -> io::Result<Vec<u8>> {
    let mut text = Vec::new(rt.alloc());
    let mut file = Retried::new(fs::open(rt, path)?).take(MAX_TEXT as u64 + 1);
    file.read_to_end(&mut text)?;
    Ok(text)
}

/// Reports that a text has more than [`MAX_TEXT`] bytes.
pub fn report_long_text<E: HintSink>(path: &str, err: &mut E) -> Status
    ensures status { result ≡ Refused }
    ensures told { TellsOne E.takes_hints E.failed E.contents E.fault_form IsLongTextReport err.old err.new }
{
    let status = report_fault(&Report::named("TextTooLong"), Status::Refused, err);
    give_hint(
        format_args!("{} has more than {MAX_TEXT} bytes", EscapedPath(path)),
        err,
    );
    status
}

/// The bytes of a LISTING, LINES, LISTENERS or SCRIPT; or reports why there are none, and returns
/// the exit status. One that is longer than [`MAX_TEXT`], as a pipe without end, is `TextTooLong`,
/// and no more of it is read.
pub fn read_text<R: Files + AllocGlobal, E: HintSink>(
    rt: &R,
    path: &str,
    err: &mut E,
) -> Result<Vec<u8>, Status>
    ensures bound { IfOk result (λ text. vec_len text ≤ MAX_TEXT) }
    ensures status { IfErr result (λ status. (status ≡ Refused) ⊎ (status ≡ Failed)) }
{
    match read_bounded(rt, path) {
        Ok(text) if text.len() <= MAX_TEXT => Ok(text),
        Ok(_) => Err(report_long_text(path, err)),
        Err(error) => Err(report_io(&error, path, err)),
    }
}
