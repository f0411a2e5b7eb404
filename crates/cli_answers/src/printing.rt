//! How printing ends.

ghost use Rattle.std.specs.Prelude.{◌≡◌};
ghost use Rattle.cli_answers.specs.declared.printing.Unprinted.TheVariants.{NoMemory, Output};

use bpfvm::NoMemory;
use std::io;

/// Why what was to be printed is not, or not all of it.
#[derive(Debug, Drop)]
pub enum Unprinted {
    /// Memory was refused.
    NoMemory,
    /// The writer failed.
    Output(io::Error),
}

impl From<NoMemory> for Unprinted {
    ghost from_gives = { λ _ e. e ≡ NoMemory };

    fn from(_refused: NoMemory) -> Unprinted {
        Unprinted::NoMemory
    }
}

impl From<io::Error> for Unprinted {
    ghost from_gives = { λ error e. e ≡ Output error };

    fn from(error: io::Error) -> Unprinted {
        Unprinted::Output(error)
    }
}
