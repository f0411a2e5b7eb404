//! Why an expression is not compiled.

ghost use Rattle.std.specs.Prelude.{◌≡◌, Some};
ghost use Rattle.filtergen_facts.specs.Faults.{refusal_text};

use std::fmt;
use std::fmt::{Display, Formatter};
use thiserror::Error;

/// Why an expression is not compiled. `BadSnap` is looked for first, and `TooDeep` second. It
/// prints as its name.
#[derive(Clone, Copy, Debug, PartialEq, Eq, Error)]
pub enum Refusal {
    /// More than 512 instructions are written for the expression, before those that nothing reaches
    /// are taken out. It comes only if the expression's weight is above 500.
    TooLong,
    /// A relation needs more than 16 cells of the scratch memory.
    TooDeep,
    /// The snapshot length is not from 1 to 262,144.
    BadSnap,
    /// Memory was refused. It does not come, since the compiler takes none.
    NoMemory,
}

impl Refusal {
    /// Its name, as it prints.
    pub fn name(self) -> &'static str
        ensures { result.now ≡ refusal_text self }
    {
        match self {
            Refusal::TooLong => "TooLong",
            Refusal::TooDeep => "TooDeep",
            Refusal::BadSnap => "BadSnap",
            Refusal::NoMemory => "NoMemory",
        }
    }
}

impl Display for Refusal {
    ghost output = { λ fault. Some (refusal_text fault) };

    fn fmt<W: fmt::Write>(&self, f: &mut Formatter<W>) -> fmt::Result {
        f.write_str(self.name())
    }
}
