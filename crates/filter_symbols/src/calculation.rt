//! What operators make of symbols, and how symbols compare.

ghost use Rattle.std.specs.Prelude.{◌≡◌, ℕ, ◌<◌, ◌==◌, if◌then◌else◌, length, Option, option_and_then, IfOk};
ghost use Rattle.bpfvm.specs.Machine.{calculated};
ghost use Rattle.filter_meaning.specs.declared.verdict.Verdict.TheVariants.{Abort};
ghost use Rattle.filter_meaning.specs.Meaning.{Packet, arithmetic_of, compared, check_both};
ghost use Rattle.filter_words.specs.Words.{value, Says, IsWord, Calculates};
ghost use Rattle.filter_symbols.specs.Packets.{bit_of, verdict_at};
ghost use Rattle.filter_symbols.specs.Symbols.{IsSymbol, StandsFor, SaysOf, Extends};
ghost use Rattle.filter_symbols.specs.Steps.{if_number};

use crate::symbol::{Symbol, Symbols};
use filter_bdd::{Answer, Operation, Stop};
use filter_tree::{Comparison, Operator};
use filter_words::Word;

impl Symbols {
    /// What an operator makes of two words.
    fn calculate_words(
        &mut self,
        operator: Operator,
        first: Word,
        second: Word,
    ) -> Result<Word, Stop>
        requires first { IsWord self.old.words.diagrams first }
        requires second { IsWord self.old.words.diagrams second }
        ensures calculates { IfOk result (Calculates self.old.words.diagrams self.new.words.diagrams (arithmetic_of operator) first second) }
        ensures extends { Extends self.old self.new }
    {
        match operator {
            Operator::Plus => self.words.add(first, second),
            Operator::Minus => self.words.subtract(first, second),
            Operator::Times => self.words.multiply(first, second),
            Operator::Divide => self.words.divide(first, second),
            Operator::Modulo => self.words.remainder(first, second),
            Operator::BitAnd => self.words.and(first, second),
            Operator::BitXor => self.words.xor(first, second),
            Operator::BitOr => self.words.or(first, second),
            Operator::ShiftLeft => self.words.shift_left(first, second),
            Operator::ShiftRight => self.words.shift_right(first, second),
        }
    }

    /// A guard that aborts if a divisor is 0 too.
    fn guard_divisor(&mut self, guard: u32, divisor: Word) -> Result<u32, Stop>
        requires guard { guard < length self.old.words.diagrams }
        requires divisor { IsWord self.old.words.diagrams divisor }
        ensures inside { IfOk result (λ i. i < length self.new.words.diagrams) }
        ensures says { IfOk result (λ i. (p : Packet) → verdict_at self.new.words.diagrams i p ≡ (if value self.old.words.diagrams (bit_of p) divisor == 0 then Abort else verdict_at self.old.words.diagrams guard p)) }
        ensures extends { Extends self.old self.new }
    {
        let zero = self.words.constant(0)?;
        let none = self.words.is_equal(divisor, zero)?;
        let never = self.words.diagrams.leaf(Answer::Never)?;
        self.words.diagrams.ite(none, never, guard)
    }

    /// A guard that aborts if an operator makes nothing of two numbers too.
    fn guard_operator(&mut self, operator: Operator, guard: u32, second: Word) -> Result<u32, Stop>
        requires guard { guard < length self.old.words.diagrams }
        requires second { IsWord self.old.words.diagrams second }
        ensures inside { IfOk result (λ i. i < length self.new.words.diagrams) }
        ensures says { IfOk result (λ i. (p : Packet) (n : ℕ) → verdict_at self.new.words.diagrams i p
            ≡ if_number (calculated (arithmetic_of operator) n (value self.old.words.diagrams (bit_of p) second)) (verdict_at self.old.words.diagrams guard p)) }
        ensures extends { Extends self.old self.new }
    {
        match operator {
            Operator::Divide => self.guard_divisor(guard, second),
            Operator::Modulo => self.guard_divisor(guard, second),
            _ => Ok(guard),
        }
    }

    /// What an operator makes of two symbols. It is nothing if one of them has no number, or a
    /// divisor is 0.
    #[inline(never)]
    pub fn calculate(
        &mut self,
        operator: Operator,
        first: Symbol,
        second: Symbol,
    ) -> Result<Symbol, Stop>
        requires first { IsSymbol self.old.words.diagrams first }
        requires second { IsSymbol self.old.words.diagrams second }
        ensures inside { IfOk result (IsSymbol self.new.words.diagrams) }
        ensures stands { IfOk result (λ s. (f g : Packet → Option ℕ) → StandsFor self.old f first → StandsFor self.old g second
            → StandsFor self.new (λ p. option_and_then (λ a. option_and_then (λ b. calculated (arithmetic_of operator) a b) (g p)) (f p)) s) }
        ensures extends { Extends self.old self.new }
    {
        let word = self.calculate_words(operator, first.word, second.word)?;
        let both = self
            .words
            .diagrams
            .apply(Operation::And, first.guard, second.guard)?;
        let guard = self.guard_operator(operator, both, second.word)?;
        Ok(Symbol { guard, word })
    }

    /// A node that says whether two words compare in this way.
    fn compare_words(
        &mut self,
        comparison: Comparison,
        first: Word,
        second: Word,
    ) -> Result<u32, Stop>
        requires first { IsWord self.old.words.diagrams first }
        requires second { IsWord self.old.words.diagrams second }
        ensures says { IfOk result (Says self.new.words.diagrams (λ v. compared comparison (value self.old.words.diagrams v first) (value self.old.words.diagrams v second))) }
        ensures extends { Extends self.old self.new }
    {
        match comparison {
            Comparison::Equal => self.words.is_equal(first, second),
            Comparison::NotEqual => {
                let equal = self.words.is_equal(first, second)?;
                self.words.opposite(equal)
            }
            Comparison::Less => self.words.is_greater(second, first),
            Comparison::Greater => self.words.is_greater(first, second),
            Comparison::LessOrEqual => self.words.is_at_least(second, first),
            Comparison::GreaterOrEqual => self.words.is_at_least(first, second),
        }
    }

    /// A node that says whether two symbols compare in this way. It aborts if one of them has no
    /// number.
    #[inline(never)]
    pub fn compare(
        &mut self,
        comparison: Comparison,
        first: Symbol,
        second: Symbol,
    ) -> Result<u32, Stop>
        requires first { IsSymbol self.old.words.diagrams first }
        requires second { IsSymbol self.old.words.diagrams second }
        ensures says { IfOk result (λ i. (f g : Packet → Option ℕ) → StandsFor self.old f first → StandsFor self.old g second
            → SaysOf self.new (λ p. check_both (compared comparison) (f p) (g p)) i) }
        ensures inside { IfOk result (λ i. i < length self.new.words.diagrams) }
        ensures extends { Extends self.old self.new }
    {
        let holds = self.compare_words(comparison, first.word, second.word)?;
        let both = self
            .words
            .diagrams
            .apply(Operation::And, first.guard, second.guard)?;
        self.words.diagrams.apply(Operation::And, both, holds)
    }
}
