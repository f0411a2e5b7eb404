//! The form of what a command prints.

ghost use Rattle.std.specs.Prelude.{◌≡◌, if◌then◌else◌};

use visible_text::PrintedName;

/// The form of the lines that a command prints.
#[derive(Clone, Copy, Debug, PartialEq, Eq)]
pub enum LineForm {
    /// Lines of text.
    Text,
    /// JSON Lines: an object for each line of the text.
    Json,
}

impl LineForm {
    /// The form that the command line asks for, with `--json` or without.
    pub fn asked(json: bool) -> LineForm
        ensures { result ≡ if json then LineForm.Json else LineForm.Text }
    {
        if json { LineForm::Json } else { LineForm::Text }
    }
}

/// The form of lines that name files.
#[derive(Clone, Copy, Debug, PartialEq, Eq)]
pub struct NamingForm {
    pub form: LineForm,
    /// Whether the lines go to a terminal: in lines of text hidden characters of a name are marked
    /// then.
    pub is_terminal: bool,
}

impl NamingForm {
    /// The name of a file, as a line of text has it.
    pub fn named(self, name: &str) -> PrintedName<'_>
        ensures name { result.name ≡ name.entry }
        ensures terminal { result.is_terminal ≡ self.is_terminal }
    {
        PrintedName {
            name,
            is_terminal: self.is_terminal,
        }
    }
}
