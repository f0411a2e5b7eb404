//! The form of the lines of packets, and what they are put together in.

ghost use Rattle.std.specs.Prelude.{◌≡◌};
ghost use Rattle.cli_answers.specs.Counts.{asked_form, of_capture};

use std::alloc::Global;

/// The form of the lines of packets.
#[derive(Clone, Copy, Debug, PartialEq, Eq)]
pub enum PacketForm {
    /// Texts.
    Text,
    /// Objects of JSON, of the capture of this number.
    Json(usize),
}

impl PacketForm {
    /// The form that is asked for, of capture 0: objects if `--json` is given.
    pub fn asked(json: bool) -> PacketForm
        ensures { result ≡ asked_form json }
    {
        if json {
            PacketForm::Json(0)
        } else {
            PacketForm::Text
        }
    }

    /// The form of the lines of the capture of this number.
    pub fn of_capture(self, number: usize) -> PacketForm
        ensures { result ≡ of_capture self number }
    {
        match self {
            PacketForm::Text => PacketForm::Text,
            PacketForm::Json(_) => PacketForm::Json(number),
        }
    }
}

/// The line of a packet that is put together, and what is in one of its strings.
#[derive(Drop)]
pub struct PacketLine {
    pub line: String,
    pub text: String,
}

impl PacketLine {
    /// An empty line.
    pub fn new(alloc: Global) -> PacketLine {
        PacketLine {
            line: String::new(alloc),
            text: String::new(alloc),
        }
    }
}
