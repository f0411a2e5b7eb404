//! Answers, and operations on them.

ghost use Rattle.std.specs.Prelude.{◌≡◌, IsTrue};
ghost use Rattle.filter_bdd.specs.Answers.{outcome, after, and_answer, or_answer, xor_answer, ite_answer, accepted_from, agree_from, apart_answer, cut_answer};
ghost use Rattle.filter_bdd.specs.declared.answer.Answer.{Answer};

/// An answer, and how many captured bytes it needs.
#[derive(Clone, Copy, Debug, PartialEq, Eq)]
pub enum Answer {
    /// Yes or No if at least N bytes were captured, else Abort.
    Final(u32, bool),
    /// Abort, however many bytes were captured.
    Never,
}

/// An operation on answers. It has two, and `Ite` has three.
#[derive(Clone, Copy, Debug, PartialEq, Eq)]
pub enum Operation {
    And,
    Or,
    /// Yes if one says Yes and the other No. Both are needed.
    Xor,
    /// The second answer if the first says Yes, the third if it says No. What the first needs
    /// is needed too.
    Ite,
    /// Yes if both accept from the same number of captured bytes on, or neither ever does. Else
    /// No, from as many on as the first to accept needs.
    Agree,
    /// No if one says Yes and the other No, from as many captured bytes on as both need; else
    /// Yes.
    Apart,
    /// The second answer, but Yes in place of a No that needs N bytes or more, if the first one
    /// says No of a packet shorter than N.
    Cut,
}

impl Answer {
    /// The answer, if `need` captured bytes are needed too.
    fn after(self, need: u32) -> Answer
        ensures { result ≡ after need self }
    {
        match self {
            Answer::Final(more, says) => Answer::Final(need.max(more), says),
            Answer::Never => Answer::Never,
        }
    }

    /// `and` of two answers.
    fn and(self, second: Answer) -> Answer
        ensures { result ≡ and_answer self second }
    {
        match self {
            Answer::Final(need, true) => second.after(need),
            _ => self,
        }
    }

    /// `or` of two answers.
    fn or(self, second: Answer) -> Answer
        ensures { result ≡ or_answer self second }
    {
        match self {
            Answer::Final(need, false) => second.after(need),
            _ => self,
        }
    }

    /// Whether one answer is Yes and the other No.
    fn xor(self, second: Answer) -> Answer
        ensures { result ≡ xor_answer self second }
    {
        match (self, second) {
            (Answer::Final(need, says), Answer::Final(more, other)) => {
                Answer::Final(need.max(more), says != other)
            }
            _ => Answer::Never,
        }
    }

    /// One of two answers, by this one.
    fn ite(self, yes: Answer, no: Answer) -> Answer
        ensures { result ≡ ite_answer self yes no }
    {
        match self {
            Answer::Final(need, true) => yes.after(need),
            Answer::Final(need, false) => no.after(need),
            Answer::Never => Answer::Never,
        }
    }

    /// From how many captured bytes on a packet is accepted.
    fn accepted_from(self) -> Option<u32>
        ensures { result ≡ accepted_from self }
    {
        match self {
            Answer::Final(need, true) => Some(need),
            _ => None,
        }
    }

    /// Whether two answers accept from the same number of captured bytes on: No if they do not,
    /// from as many on as the first to accept needs.
    fn agree(self, second: Answer) -> Answer
        ensures { result ≡ agree_from (accepted_from self) (accepted_from second) }
    {
        match (self.accepted_from(), second.accepted_from()) {
            (None, None) => Answer::Final(0, true),
            (Some(need), None) => Answer::Final(need, false),
            (None, Some(need)) => Answer::Final(need, false),
            (Some(need), Some(other)) if need == other => Answer::Final(0, true),
            (Some(need), Some(other)) => Answer::Final(need.min(other), false),
        }
    }

    /// What is left of the second answer if the first one is a comparison of the length on the
    /// wire with its need.
    fn cut(self, second: Answer) -> Answer
        ensures { result ≡ cut_answer self second }
    {
        match (self, second) {
            (Answer::Final(size, false), Answer::Final(need, false)) if need >= size => {
                Answer::Final(0, true)
            }
            _ => second,
        }
    }

    /// Whether two answers are never Yes and No: No if they are, from as many captured bytes on
    /// as both need.
    fn apart(self, second: Answer) -> Answer
        ensures { result ≡ apart_answer self second }
    {
        match (self, second) {
            (Answer::Final(need, true), Answer::Final(more, false)) => {
                Answer::Final(need.max(more), false)
            }
            (Answer::Final(need, false), Answer::Final(more, true)) => {
                Answer::Final(need.max(more), false)
            }
            _ => Answer::Final(0, true),
        }
    }
}

impl Operation {
    /// The answer of the operation.
    pub(crate) fn of(self, first: Answer, second: Answer, third: Answer) -> Answer
        ensures { result ≡ outcome self first second third }
    {
        match self {
            Operation::And => first.and(second),
            Operation::Or => first.or(second),
            Operation::Xor => first.xor(second),
            Operation::Ite => first.ite(second, third),
            Operation::Agree => first.agree(second),
            Operation::Apart => first.apart(second),
            Operation::Cut => first.cut(second),
        }
    }

    /// Whether the first answer is the whole, whatever the others are.
    pub(crate) fn ends_at(self, first: Answer) -> bool
        ensures { IsTrue result → (second third : Answer) → outcome self first second third ≡ first }
    {
        match (self, first) {
            (Operation::And, Answer::Final(_, says)) => !says,
            (Operation::Or, Answer::Final(_, says)) => says,
            (Operation::And, Answer::Never) => true,
            (Operation::Or, Answer::Never) => true,
            (Operation::Ite, Answer::Never) => true,
            _ => false,
        }
    }

    /// Whether the second answer is the whole, whatever the others are.
    pub(crate) fn passes(self, first: Answer) -> bool
        ensures { IsTrue result → (second third : Answer) → outcome self first second third ≡ second }
    {
        match (self, first) {
            (Operation::And, Answer::Final(0, says)) => says,
            (Operation::Or, Answer::Final(0, says)) => !says,
            (Operation::Xor, Answer::Final(0, says)) => !says,
            (Operation::Ite, Answer::Final(0, says)) => says,
            (Operation::Cut, Answer::Final(_, says)) => says,
            _ => false,
        }
    }

    /// Whether the third answer is the whole, whatever the second one is.
    pub(crate) fn skips(self, first: Answer) -> bool
        ensures { IsTrue result → (second third : Answer) → outcome self first second third ≡ third }
    {
        match (self, first) {
            (Operation::Ite, Answer::Final(0, says)) => !says,
            _ => false,
        }
    }

    /// Whether the first answer is the whole beside these, whatever it is.
    pub(crate) fn keeps_first(self, second: Answer, third: Answer) -> bool
        ensures { IsTrue result → (first : Answer) → outcome self first second third ≡ first }
    {
        match (self, second, third) {
            (Operation::And, Answer::Final(0, says), _) => says,
            (Operation::Or, Answer::Final(0, says), _) => !says,
            (Operation::Xor, Answer::Final(0, says), _) => !says,
            (Operation::Ite, Answer::Final(0, says), Answer::Final(0, other)) => says && !other,
            _ => false,
        }
    }

    /// Whether an answer joined with itself is itself.
    pub(crate) fn keeps_same(self) -> bool
        ensures { IsTrue result → (answer third : Answer) → outcome self answer answer third ≡ answer }
    {
        matches!(self, Operation::And | Operation::Or)
    }
}
