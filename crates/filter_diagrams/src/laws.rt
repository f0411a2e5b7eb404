//! Laws of the definitions that the contracts cite. Each function is empty, and its contract is the
//! law.

ghost use Rattle.filter_diagrams.specs.Programs.{ProgramsSayYes};

/// A program says Yes of the packets of which it keeps bytes.
pub fn programs_say_yes()
    ensures { ProgramsSayYes }
{}
