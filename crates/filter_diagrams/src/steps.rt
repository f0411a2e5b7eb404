//! What single instructions do, by the words in the registers and in the scratch memory.

ghost use Rattle.std.specs.Prelude.{◌≡◌, ℕ, ◌<◌, ◌+◌, ◌*◌, length, Some, option_map, bit_and, nat_lt, IfOk};
ghost use Rattle.bpfvm.specs.Machine.{calculated, holds, number_at, operand};
ghost use Rattle.filter_meaning.specs.Meaning.{arithmetic_of, bytes_of};
ghost use Rattle.filter_words.specs.Words.{Says, IsWord, value};
ghost use Rattle.filter_symbols.specs.Packets.{bit_of};
ghost use Rattle.filter_symbols.specs.Symbols.{StandsFor, Extends};
ghost use Rattle.filter_diagrams.specs.Actions.{comparison_of, operand_of, number_from};
ghost use Rattle.filter_diagrams.specs.States.{AreWords};
ghost use Rattle.filter_diagrams.specs.Walks.{IsOperand, IsLoad, IsOn, IsJump, IsStepOf};

use crate::actions::{Action, LoadSource, Operand, Test};
use crate::builder::Builder;
use crate::refusal::Refusal;
use crate::state::{State, kept};
use bpfvm::Insn;
use filter_bdd::{Answer, Stop};
use filter_symbols::Symbol;
use filter_tree::headers::ETHER_HDR_LEN;
use filter_tree::{Operator, Size};
use filter_words::Word;

/// Where the IPv4 header begins in the frame.
const HEADER: u32 = ETHER_HDR_LEN as u32;

/// What an instruction does.
#[derive(Clone, Copy, Debug)]
pub(crate) enum Step {
    /// Where the node `guard` says Yes, the run goes on past `passed` of the instructions that
    /// follow, with a state. Elsewhere it aborts.
    On {
        guard: u32,
        passed: u32,
        state: State,
    },
    /// A conditional jump, by what a node says.
    Branch(u32),
    /// The run ends, with what a node says.
    End(u32),
}

impl Builder {
    /// A symbol of a number that every packet has.
    fn symbol_of(&mut self, word: Word) -> Result<Symbol, Stop>
        requires { IsWord self.old.symbols.words.diagrams word }
        ensures stands { IfOk result (StandsFor self.new.symbols (λ p. Some (value self.old.symbols.words.diagrams (bit_of p) word))) }
        ensures extends { Extends self.old.symbols self.new.symbols }
    {
        let guard = self.symbols.words.fixed(true)?;
        Ok(Symbol { guard, word })
    }

    /// The operand of an instruction.
    fn operand(&mut self, state: &State, insn: &Insn, operand: Operand) -> Result<Word, Refusal>
        requires { AreWords self.old.symbols.words.diagrams state.now }
        ensures operand { IfOk result (IsOperand self.old.symbols.words.diagrams self.new.symbols.words.diagrams state.now (operand_of operand) insn.now) }
        ensures extends { Extends self.old.symbols self.new.symbols }
    {
        match operand {
            Operand::Constant => Ok(self.symbols.words.constant(insn.k)?),
            Operand::InIndex => kept(state.index),
        }
    }

    /// What an operator makes of two numbers that every packet has.
    #[tactic(auto, using(crate::proofs::Builders::extends_more, crate::proofs::Builders::extends_same, crate::proofs::Builders::inside_extended, crate::proofs::Instructions::word_extended))]
    fn calculated(&mut self, operator: Operator, first: Word, second: Word) -> Result<Symbol, Stop>
        requires first { IsWord self.old.symbols.words.diagrams first }
        requires second { IsWord self.old.symbols.words.diagrams second }
        ensures stands { IfOk result (StandsFor self.new.symbols (λ p. calculated (arithmetic_of operator)
            (value self.old.symbols.words.diagrams (bit_of p) first) (value self.old.symbols.words.diagrams (bit_of p) second))) }
        ensures extends { Extends self.old.symbols self.new.symbols }
    {
        let left = self.symbol_of(first)?;
        let right = self.symbol_of(second)?;
        self.symbols.calculate(operator, left, right)
    }

    /// The length in bytes of an IPv4 header that begins at an offset. `Header` if it is that of
    /// the packet, and not given.
    fn header_length(&mut self, offset: u32) -> Result<Symbol, Refusal>
        ensures stands { IfOk result (StandsFor self.new.symbols (λ p. option_map (λ b. 4 * bit_and b 15) (number_at p.captured offset 1))) }
        ensures extends { Extends self.old.symbols self.new.symbols }
    {
        if offset == HEADER && self.symbols.header.is_none() {
            return Err(Refusal::Header);
        }
        let first = self.symbols.load_at(offset, Size::One)?;
        let mask = self.symbols.number(15)?;
        let words = self.symbols.calculate(Operator::BitAnd, first, mask)?;
        let four = self.symbols.number(4)?;
        let length = self.symbols.calculate(Operator::Times, words, four)?;
        Ok(length)
    }

    /// Bytes at an offset that the index register adds to. `Header` if the register is no constant,
    /// and the header's length is not given: with it most offsets are.
    #[tactic(auto, using(crate::proofs::Builders::extends_more, crate::proofs::Builders::extends_same, crate::proofs::Instructions::word_extended))]
    fn load_after(&mut self, index: Word, offset: u32, size: Size) -> Result<Symbol, Refusal>
        requires { IsWord self.old.symbols.words.diagrams index }
        ensures stands { IfOk result (StandsFor self.new.symbols (λ p. number_at p.captured (offset + value self.old.symbols.words.diagrams (bit_of p) index) (bytes_of size))) }
        ensures extends { Extends self.old.symbols self.new.symbols }
    {
        if self.symbols.header.is_none() && self.symbols.words.known(index).is_none() {
            return Err(Refusal::Header);
        }
        let place = self.symbol_of(index)?;
        let bytes = self.symbols.load(place, offset, size)?;
        Ok(bytes)
    }

    /// The number that an instruction loads.
    #[tactic(auto, using(crate::proofs::Builders::extends_more, crate::proofs::Builders::extends_same, crate::proofs::Builders::inside_extended, crate::proofs::Instructions::word_extended))]
    #[inline(never)]
    fn load_of(&mut self, state: &State, insn: &Insn, source: LoadSource) -> Result<Symbol, Refusal>
        requires { AreWords self.old.symbols.words.diagrams state.now }
        ensures load { IfOk result (IsLoad self.old.symbols self.new.symbols state.now (number_from source) insn.now) }
        ensures extends { Extends self.old.symbols self.new.symbols }
    {
        match source {
            LoadSource::Absolute(size) => Ok(self.symbols.load_at(insn.k, size)?),
            LoadSource::Indirect(size) => self.load_after(kept(state.index)?, insn.k, size),
            LoadSource::Immediate => Ok(self.symbols.number(insn.k)?),
            LoadSource::Memory => Ok(self.symbol_of(kept(state.cell(insn.k))?)?),
            LoadSource::Length => Ok(self.symbols.wire_length()?),
            LoadSource::HeaderLength => self.header_length(insn.k),
            LoadSource::Calculated(operator, operand) => {
                let first = kept(state.accumulator)?;
                let second = self.operand(state, insn, operand)?;
                Ok(self.calculated(operator, first, second)?)
            }
            LoadSource::Negated => {
                let number = kept(state.accumulator)?;
                let zero = self.symbols.words.constant(0)?;
                Ok(self.calculated(Operator::Minus, zero, number)?)
            }
            LoadSource::Register(from) => Ok(self.symbol_of(kept(state.register(from))?)?),
        }
    }

    /// A node that says whether two words pass a test.
    fn test(&mut self, test: Test, first: Word, second: Word) -> Result<u32, Stop>
        requires first { IsWord self.old.symbols.words.diagrams first }
        requires second { IsWord self.old.symbols.words.diagrams second }
        ensures says { IfOk result (Says self.new.symbols.words.diagrams (λ v. holds (comparison_of test)
            (value self.old.symbols.words.diagrams v first) (value self.old.symbols.words.diagrams v second))) }
        ensures extends { Extends self.old.symbols self.new.symbols }
    {
        match test {
            Test::Equal => self.symbols.words.is_equal(first, second),
            Test::Greater => self.symbols.words.is_greater(first, second),
            Test::GreaterOrEqual => self.symbols.words.is_at_least(first, second),
            Test::AnyBit => self.symbols.words.has_common_bit(first, second),
        }
    }

    /// A node that says whether a word is no 0.
    fn is_some(&mut self, word: Word) -> Result<u32, Stop>
        requires { IsWord self.old.symbols.words.diagrams word }
        ensures says { IfOk result (Says self.new.symbols.words.diagrams (λ v. nat_lt 0 (value self.old.symbols.words.diagrams v word))) }
        ensures extends { Extends self.old.symbols self.new.symbols }
    {
        let zero = self.symbols.words.constant(0)?;
        self.symbols.words.is_greater(word, zero)
    }

    /// The run goes on with a state, past the next `passed` instructions.
    fn go_on(&mut self, passed: u32, state: State) -> Result<Step, Stop>
        requires { AreWords self.old.symbols.words.diagrams state }
        ensures on { IfOk result (IsOn self.new.symbols.words.diagrams passed state) }
        ensures extends { Extends self.old.symbols self.new.symbols }
    {
        let guard = self.symbols.words.fixed(true)?;
        Ok(Step::On {
            guard,
            passed,
            state,
        })
    }

    /// A conditional jump. If the test is the same for every packet, the run goes on one way only.
    fn branch(&mut self, state: &State, insn: &Insn, test: u32) -> Result<Step, Stop>
        requires state { AreWords self.old.symbols.words.diagrams state.now }
        requires test { test < length self.old.symbols.words.diagrams }
        ensures jump { IfOk result (IsJump self.old.symbols.words.diagrams self.new.symbols.words.diagrams state.now insn.now test) }
        ensures extends { Extends self.old.symbols self.new.symbols }
    {
        if self.symbols.words.diagrams.is(test, Answer::Final(0, true)) {
            return self.go_on(u32::from(insn.jt), *state);
        }
        if self
            .symbols
            .words
            .diagrams
            .is(test, Answer::Final(0, false))
        {
            return self.go_on(u32::from(insn.jf), *state);
        }
        Ok(Step::Branch(test))
    }

    /// What an instruction does.
    #[tactic(auto, using(crate::proofs::Builders::extends_more, crate::proofs::Builders::extends_same, crate::proofs::Builders::inside_extended, crate::proofs::Instructions::word_extended, crate::proofs::Instructions::words_extended))]
    #[inline(never)]
    pub(crate) fn step(
        &mut self,
        state: &State,
        insn: &Insn,
        action: Action,
    ) -> Result<Step, Refusal>
        requires { AreWords self.old.symbols.words.diagrams state.now }
        ensures step { IfOk result (IsStepOf self.old.symbols self.new.symbols state.now insn.now action) }
        ensures extends { Extends self.old.symbols self.new.symbols }
    {
        match action {
            Action::Load(to, source) => {
                let number = self.load_of(state, insn, source)?;
                Ok(Step::On {
                    guard: number.guard,
                    passed: 0,
                    state: state.with_register(to, number.word),
                })
            }
            Action::Store(from) => {
                let stored = state.with_cell(insn.k, kept(state.register(from))?)?;
                Ok(self.go_on(0, stored)?)
            }
            Action::Jump => Ok(self.go_on(insn.k, *state)?),
            Action::Branch(test, operand) => {
                let first = kept(state.accumulator)?;
                let second = self.operand(state, insn, operand)?;
                let holds = self.test(test, first, second)?;
                Ok(self.branch(state, insn, holds)?)
            }
            Action::ReturnConstant => {
                let end = self.leaf(Answer::Final(0, insn.k > 0))?;
                Ok(Step::End(end))
            }
            Action::ReturnAccumulator => {
                let end = self.is_some(kept(state.accumulator)?)?;
                Ok(Step::End(end))
            }
        }
    }
}
