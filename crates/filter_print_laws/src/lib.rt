//! What follows from the definitions of the filter language and of its canonical texts.
#![tactic(auto)]

ghost use Rattle.filter_print_laws.specs.Laws.{IsReadAgain, IsReadAsNoOther};

use filterlang::laws::{one_list_of_tokens, one_tree};

/// The canonical text of a tree that some text reads as is read as that tree again, and as no
/// other. This does nothing: its contract is the law.
pub fn read_again()
    ensures again { IsReadAgain }
    ensures only { IsReadAsNoOther }
{
    one_list_of_tokens();
    one_tree();
}
