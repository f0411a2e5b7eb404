//! Laws of the definitions that the contracts cite. Each function is empty, and its contract is the
//! law.

ghost use Rattle.bpf_asm.specs.Laws.{ImagesAreRead, ImagesAreAssembly, ClearedIsValid, ClearedAnswersAlike, AssembledIsReadAgain};

/// The image of a valid program is read as that program, with 0 in each field that an instruction
/// does not use. With these fields so, it is a valid program too, and answers the same to each
/// packet.
pub fn images_are_read()
    ensures read { ImagesAreRead }
    ensures assembly { ImagesAreAssembly }
    ensures valid { ClearedIsValid }
    ensures alike { ClearedAnswersAlike }
{}

/// A valid program that a text is assembly of has an image that is read as this program again.
pub fn assembled_programs_are_read_again()
    ensures { AssembledIsReadAgain }
{}
