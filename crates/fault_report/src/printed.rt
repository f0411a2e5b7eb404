//! The two printers of a fault that is reported.

ghost use Rattle.std.specs.Prelude.{Some};
ghost use Rattle.fault_report.specs.Reports.{names_member, numbers_member, report_object, report_text, reported_text, subject_member};

use crate::report::{Report, Subject};
use crate::word::{FurtherNames, Numbers, Words};
use cli_text::report::EscapedPath;
use line_text::{JsonString, LineForm};
use std::fmt;
use std::fmt::{Display, Formatter};

/// Prints a report as it stands in a line after the program's name: its names and numbers, each
/// after a blank, and the file or stream that failed. A path is printed as an [`EscapedPath`].
#[derive(Clone, Copy)]
pub struct ReportText<'r, 'a>(pub &'r Report<'a>);

impl Display for ReportText<'_, '_> {
    ghost output = { λ report. Some (report_text report.0.now) };

    fn fmt<W: fmt::Write>(&self, f: &mut Formatter<W>) -> fmt::Result {
        let name = self.0.name;
        let words = Words(self.0.words.as_slice());
        match self.0.subject {
            Some(Subject::File(path)) => write!(f, "{name}{words} {}", EscapedPath(path)),
            Some(Subject::StandardOutput) => write!(f, "{name}{words} standard output"),
            Some(Subject::Capture(_) | Subject::Argument(_)) | None => write!(f, "{name}{words}"),
        }
    }
}

/// Prints what failed as a member of an object.
#[derive(Clone, Copy)]
struct SubjectMember<'a>(Option<Subject<'a>>);

impl Display for SubjectMember<'_> {
    ghost output = { λ subject. Some (subject_member subject.0) };

    fn fmt<W: fmt::Write>(&self, f: &mut Formatter<W>) -> fmt::Result {
        match self.0 {
            Some(Subject::File(path) | Subject::Capture(path)) => {
                write!(f, ",\"file\":{}", JsonString(path))
            }
            Some(Subject::Argument(name)) => write!(f, ",\"argument\":\"{name}\""),
            Some(Subject::StandardOutput) => f.write_str(",\"stream\":\"standard output\""),
            None => Ok(()),
        }
    }
}

/// Prints the names of a fault as a member of an object.
#[derive(Clone, Copy)]
struct NamesMember<'r, 'a>(&'r Report<'a>);

impl Display for NamesMember<'_, '_> {
    ghost output = { λ report. Some (names_member report.0.now) };

    fn fmt<W: fmt::Write>(&self, f: &mut Formatter<W>) -> fmt::Result {
        let further = FurtherNames(self.0.words.as_slice());
        write!(f, "\"fault\":\"{}{further}\"", self.0.name)
    }
}

/// Prints its numbers as a member of an object.
#[derive(Clone, Copy)]
struct NumbersMember<'r, 'a>(&'r Report<'a>);

impl Display for NumbersMember<'_, '_> {
    ghost output = { λ report. Some (numbers_member report.0.now) };

    fn fmt<W: fmt::Write>(&self, f: &mut Formatter<W>) -> fmt::Result {
        write!(f, "\"numbers\":[{}]", Numbers(self.0.words.as_slice()))
    }
}

/// Prints a report as an object of JSON: `{"fault":"NAMES","numbers":[N,N]}`, and with the key
/// `"file"` the path of what has the fault, with `"argument"` the name of an argument that has it,
/// or with `"stream"` that standard output failed. It takes no memory, since it may have to say that
/// memory ran out.
#[derive(Clone, Copy)]
pub struct ReportObject<'r, 'a>(pub &'r Report<'a>);

impl Display for ReportObject<'_, '_> {
    ghost output = { λ report. Some (report_object report.0.now) };

    fn fmt<W: fmt::Write>(&self, f: &mut Formatter<W>) -> fmt::Result {
        let (names, numbers) = (NamesMember(self.0), NumbersMember(self.0));
        let subject = SubjectMember(self.0.subject);
        write!(f, "{{{names},{numbers}{subject}}}")
    }
}

/// Prints a report in a form, without the end of its line.
#[derive(Clone, Copy)]
pub(crate) struct Printed<'r, 'a> {
    pub form: LineForm,
    pub report: &'r Report<'a>,
}

impl Display for Printed<'_, '_> {
    ghost output = { λ printed. Some (reported_text printed.form printed.report.now) };

    fn fmt<W: fmt::Write>(&self, f: &mut Formatter<W>) -> fmt::Result {
        match self.form {
            LineForm::Text => write!(f, "bpftap: {}", ReportText(self.report)),
            LineForm::Json => write!(f, "{}", ReportObject(self.report)),
        }
    }
}
