//! `bpftap info`, over files.

use crate::report::{print_survey, report_survey};
use cli_args::info::InfoWords;
use cli_files::captures::output_buffer;
use cli_files::paths::{Opening, STANDARD_OUTPUT, refuse_shared_files};
use cli_report::HintSink;
use cli_report::failures::{hint_input, hint_output};
use cli_report::probe::ProbedInput;
use cli_report::stream::give_hint;
use cli_text::Status;
use cli_text::report::EscapedPath;
use cli_watch::captures::watched_inputs;
use cli_watch::output::WatchedOutput;
use cli_watch::{Screen, Watch};
use fault_report::reporting::{report_memory, report_unwritten};
use line_text::{LineForm, NamingForm};
use pcap_info::survey::survey_capture;
use std::alloc::Global;
use std::fs::Files;
use std::io;
use std::io::{ErrorKind, Read, Write};

/// Reports that memory for a line ran out, or that standard output failed.
fn report_unprinted<E: HintSink>(error: &io::Error, err: &mut E) -> Status {
    if error.kind() == ErrorKind::OutOfMemory {
        report_memory(err)
    } else {
        report_unwritten(error, err)
    }
}

/// How captures are inspected, and in which form their lines are printed.
#[derive(Clone, Copy)]
struct Inspector {
    alloc: Global,
    form: NamingForm,
}

impl Inspector {
    /// Surveys a capture, prints its line, and reports a failed file; `Err` if standard output
    /// failed.
    fn inspect<R: Read + Drop, O: Write, E: HintSink>(
        self,
        path: &str,
        input: ProbedInput<R>,
        out: &mut O,
        err: &mut E,
    ) -> Result<Status, Status> {
        let survey = survey_capture(self.alloc, input);
        let printed = print_survey(self.alloc, path, &survey, self.form, out);
        let status = report_survey(&survey, path, err);
        if let Err(fault) = survey.read {
            give_hint(format_args!("{}:", EscapedPath(path)), err);
            hint_input(&survey.source.inner, fault, err);
        }
        match printed {
            Ok(()) => Ok(status),
            Err(error) => Err(status.max(report_unprinted(&error, err))),
        }
    }

    /// Inspects all captures, in order.
    fn inspect_all<R: Read + Drop, O: Write, E: HintSink>(
        self,
        paths: &[&str],
        inputs: Vec<ProbedInput<R>>,
        out: &mut O,
        err: &mut E,
    ) -> Result<Status, Status> {
        let mut status = Status::Clean;
        for (path, input) in paths.iter().zip(inputs) {
            match self.inspect(*path, input, out, err) {
                Ok(one) => status = status.max(one),
                Err(one) => return Err(status.max(one)),
            }
        }
        Ok(status)
    }
}

/// Sends what the output has gathered, unless it has failed.
fn flush<O: Write, E: HintSink>(
    ended: Result<Status, Status>,
    out: &mut O,
    err: &mut E,
) -> Result<Status, Status> {
    let status = ended?;
    match out.flush() {
        Ok(()) => Ok(status),
        Err(error) => Err(status.max(report_unprinted(&error, err))),
    }
}

/// `bpftap info`: a line for each capture, and the greatest exit status of them. No capture is the
/// file that is printed to. A capture that is torn or refused does not end the reading.
pub fn info_command<R: Files + AllocGlobal + Screen, O: Write, E: HintSink>(
    rt: &R,
    words: &InfoWords<'_>,
    out: &mut O,
    err: &mut E,
) -> Status {
    let paths = words.inputs.as_slice();
    let output = Some(STANDARD_OUTPUT);
    if let Err(status) = refuse_shared_files(rt, Opening::First, output, paths, &[], err) {
        return status;
    }
    let watch = Watch::new(rt, paths, err.takes_hints());
    let Ok(inputs) = watched_inputs(rt, rt.alloc(), paths, &watch) else {
        return report_memory(err);
    };
    let out = WatchedOutput::new(&mut *out, &watch);
    let mut out = match output_buffer(rt.alloc(), out, err) {
        Ok(out) => out,
        Err(status) => return status,
    };
    let inspector = Inspector {
        alloc: rt.alloc(),
        form: NamingForm {
            form: LineForm::asked(words.json),
            is_terminal: rt.is_output_terminal(),
        },
    };
    let ended = inspector.inspect_all(paths, inputs, &mut out, err);
    watch.erase();
    let ended = flush(ended, &mut out, err);
    hint_output(out.get_ref(), err);
    match ended {
        Ok(status) | Err(status) => status,
    }
}
