//! A fault that is reported.

ghost use Rattle.std.specs.Prelude.{◌≡◌, None, Some};
ghost use Rattle.fault_report.specs.Words.{IsPart, one_word};
ghost use Rattle.fault_report.specs.declared.word.Word.TheVariants.{Nothing};

use crate::word::Word;

/// What failed, or has the fault.
#[derive(Clone, Copy, Debug, PartialEq, Eq)]
pub enum Subject<'a> {
    /// The file at this path, which the line names.
    File(&'a str),
    /// The capture at this path, which the line does not name: it has its number, or there is only
    /// one.
    Capture(&'a str),
    /// The argument of this name on the command line, which the line does not name either.
    Argument(&'static str),
    /// Standard output.
    StandardOutput,
}

/// A fault that is reported: its first name, what comes after that in its line, and what failed.
#[derive(Clone, Copy, Debug, PartialEq, Eq)]
pub struct Report<'a> {
    pub name: &'static str,
    pub words: [Word; 5],
    pub subject: Option<Subject<'a>>,
}

impl<'a> Report<'a> {
    /// A fault of one name.
    pub fn named(name: &'static str) -> Report<'a>
        ensures name { result.name.now ≡ name.now }
        ensures words { result.words ≡ one_word Nothing }
        ensures subject { result.subject ≡ None }
    {
        Report::placed(name, Word::Nothing)
    }

    /// A fault of one name, with its place.
    pub fn placed(name: &'static str, place: Word) -> Report<'a>
        ensures name { result.name.now ≡ name.now }
        ensures words { result.words ≡ one_word place }
        ensures subject { result.subject ≡ None }
    {
        let rest = Word::Nothing;
        Report {
            name,
            words: [place, rest, rest, rest, rest],
            subject: None,
        }
    }

    /// A fault of the part of this number: the name of the parts, its number, and the name and the
    /// place of what is wrong with it.
    pub fn of_part(
        name: &'static str,
        number: usize,
        fault: &'static str,
        place: Word,
    ) -> Report<'a>
        ensures name { result.name.now ≡ name.now }
        ensures words { IsPart number fault.now place result.words }
        ensures subject { result.subject ≡ None }
    {
        let rest = Word::Nothing;
        Report {
            name,
            words: [Word::count(number), Word::Name(fault), place, rest, rest],
            subject: None,
        }
    }

    /// The same of a file or a stream.
    pub fn about(self, subject: Subject<'a>) -> Report<'a>
        ensures name { result.name.now ≡ self.entry.name.now }
        ensures words { result.words ≡ self.entry.words }
        ensures subject { result.subject ≡ Some subject.entry }
    {
        Report {
            subject: Some(subject),
            ..self
        }
    }
}
