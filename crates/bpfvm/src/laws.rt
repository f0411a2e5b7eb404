//! Laws of the definitions that the contracts cite. Each function is empty, and its contract is the
//! law.

ghost use Rattle.bpfvm.specs.Laws.{EffectsAreUnique, StepsAreUnique, AnswersAreUnique, ValidProgramsGoOn, ValidProgramsAnswer, VerdictIsReached, FrontsArePassed, TracesAreUnique, TracesReach, WrittenIsRead, ListingsAreUnique};

/// A step of the machine has one outcome, and a run has one answer.
pub fn runs_have_one_outcome()
    ensures effects { EffectsAreUnique }
    ensures steps { StepsAreUnique }
    ensures answers { AnswersAreUnique }
{}

/// From each of its places and any registers a valid program answers within the instructions that
/// are left. Its verdict is the answer that its run reaches.
pub fn valid_programs_answer()
    ensures step { ValidProgramsGoOn }
    ensures run { ValidProgramsAnswer }
    ensures verdict { VerdictIsReached }
{}

/// A run over a program that goes on at a place is the run over the rest of it.
pub fn runs_go_on_over_the_rest()
    ensures { FrontsArePassed }
{}

/// A state has one trace, which has an entry for each step of its run.
pub fn traces_are_unique()
    ensures one { TracesAreUnique }
    ensures steps { TracesReach }
{}

/// The listing that is written of a program is read as that program, and as no other.
pub fn written_listings_are_read()
    ensures written { WrittenIsRead }
    ensures one { ListingsAreUnique }
{}
