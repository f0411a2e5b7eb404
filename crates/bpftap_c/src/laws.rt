//! A law of the definitions. The function is empty, and its contract is the law.

ghost use Rattle.bpftap_c.specs.Listeners.{AnswersKeep};

/// A listener that is handed the answers of a program keeps what a listener of that program keeps.
pub fn answers_keep()
    ensures { AnswersKeep }
{}
