//! What instructions do, by their codes.

ghost use Rattle.std.specs.Prelude.{IfSome};
ghost use Rattle.bpfvm.specs.Codes.{operation_of};
ghost use Rattle.filter_diagrams.specs.Actions.{IsAction};

use bpfvm::code;
use filter_tree::{Operator, Size};

/// The accumulator, or the index register.
#[derive(Clone, Copy, Debug, PartialEq, Eq)]
pub enum Register {
    Accumulator,
    Index,
}

/// Where the second number of a calculation or of a test is.
#[derive(Clone, Copy, Debug, PartialEq, Eq)]
pub enum Operand {
    /// The instruction's own number.
    Constant,
    /// The index register.
    InIndex,
}

/// A number that an instruction loads.
#[derive(Clone, Copy, Debug, PartialEq, Eq)]
pub enum LoadSource {
    /// Bytes of the frame at a constant offset.
    Absolute(Size),
    /// Bytes of the frame at an offset that the index register adds to.
    Indirect(Size),
    /// The instruction's own number.
    Immediate,
    /// A cell of the scratch memory.
    Memory,
    /// The length on the wire.
    Length,
    /// The length of an IPv4 header in bytes.
    HeaderLength,
    /// What an operator makes of the accumulator and an operand.
    Calculated(Operator, Operand),
    /// The opposite of the accumulator.
    Negated,
    /// The number in a register.
    Register(Register),
}

/// How a jump compares the accumulator with its operand.
#[derive(Clone, Copy, Debug, PartialEq, Eq)]
pub enum Test {
    Equal,
    Greater,
    GreaterOrEqual,
    /// Both have some bit.
    AnyBit,
}

/// What an instruction does.
#[derive(Clone, Copy, Debug, PartialEq, Eq)]
pub enum Action {
    /// A number goes into a register.
    Load(Register, LoadSource),
    /// The number in a register goes into a cell of the scratch memory.
    Store(Register),
    Jump,
    Branch(Test, Operand),
    ReturnConstant,
    ReturnAccumulator,
}

/// The number that an instruction of a code loads, and the register that it goes into, if it loads
/// one and calculates nothing.
fn load_of(code: u16) -> Option<(Register, LoadSource)>
    ensures { IfSome result (λ l. IsAction (operation_of code) (Action.Load l.0 l.1)) }
{
    match code {
        code::LD_W_ABS => Some((Register::Accumulator, LoadSource::Absolute(Size::Four))),
        code::LD_H_ABS => Some((Register::Accumulator, LoadSource::Absolute(Size::Two))),
        code::LD_B_ABS => Some((Register::Accumulator, LoadSource::Absolute(Size::One))),
        code::LD_W_IND => Some((Register::Accumulator, LoadSource::Indirect(Size::Four))),
        code::LD_H_IND => Some((Register::Accumulator, LoadSource::Indirect(Size::Two))),
        code::LD_B_IND => Some((Register::Accumulator, LoadSource::Indirect(Size::One))),
        code::LD_IMM => Some((Register::Accumulator, LoadSource::Immediate)),
        code::LDX_IMM => Some((Register::Index, LoadSource::Immediate)),
        code::LD_MEM => Some((Register::Accumulator, LoadSource::Memory)),
        code::LDX_MEM => Some((Register::Index, LoadSource::Memory)),
        code::LD_LEN => Some((Register::Accumulator, LoadSource::Length)),
        code::LDX_LEN => Some((Register::Index, LoadSource::Length)),
        code::LDX_MSH => Some((Register::Index, LoadSource::HeaderLength)),
        code::NEG => Some((Register::Accumulator, LoadSource::Negated)),
        code::TAX => Some((Register::Index, LoadSource::Register(Register::Accumulator))),
        code::TXA => Some((Register::Accumulator, LoadSource::Register(Register::Index))),
        _ => None,
    }
}

/// What an instruction of a code calculates, if it does.
fn calculation_of(code: u16) -> Option<(Operator, Operand)>
    ensures { IfSome result (λ c. IsAction (operation_of code) (Action.Load Register.Accumulator (LoadSource.Calculated c.0 c.1))) }
{
    match code {
        code::ADD_K => Some((Operator::Plus, Operand::Constant)),
        code::ADD_X => Some((Operator::Plus, Operand::InIndex)),
        code::SUB_K => Some((Operator::Minus, Operand::Constant)),
        code::SUB_X => Some((Operator::Minus, Operand::InIndex)),
        code::MUL_K => Some((Operator::Times, Operand::Constant)),
        code::MUL_X => Some((Operator::Times, Operand::InIndex)),
        code::DIV_K => Some((Operator::Divide, Operand::Constant)),
        code::DIV_X => Some((Operator::Divide, Operand::InIndex)),
        code::OR_K => Some((Operator::BitOr, Operand::Constant)),
        code::OR_X => Some((Operator::BitOr, Operand::InIndex)),
        code::AND_K => Some((Operator::BitAnd, Operand::Constant)),
        code::AND_X => Some((Operator::BitAnd, Operand::InIndex)),
        code::LSH_K => Some((Operator::ShiftLeft, Operand::Constant)),
        code::LSH_X => Some((Operator::ShiftLeft, Operand::InIndex)),
        code::RSH_K => Some((Operator::ShiftRight, Operand::Constant)),
        code::RSH_X => Some((Operator::ShiftRight, Operand::InIndex)),
        code::MOD_K => Some((Operator::Modulo, Operand::Constant)),
        code::MOD_X => Some((Operator::Modulo, Operand::InIndex)),
        code::XOR_K => Some((Operator::BitXor, Operand::Constant)),
        code::XOR_X => Some((Operator::BitXor, Operand::InIndex)),
        _ => None,
    }
}

/// What an instruction of a code does that stores, jumps or returns, if it is one.
fn control_of(code: u16) -> Option<Action>
    ensures { IfSome result (IsAction (operation_of code)) }
{
    match code {
        code::ST => Some(Action::Store(Register::Accumulator)),
        code::STX => Some(Action::Store(Register::Index)),
        code::JA => Some(Action::Jump),
        code::JEQ_K => Some(Action::Branch(Test::Equal, Operand::Constant)),
        code::JEQ_X => Some(Action::Branch(Test::Equal, Operand::InIndex)),
        code::JGT_K => Some(Action::Branch(Test::Greater, Operand::Constant)),
        code::JGT_X => Some(Action::Branch(Test::Greater, Operand::InIndex)),
        code::JGE_K => Some(Action::Branch(Test::GreaterOrEqual, Operand::Constant)),
        code::JGE_X => Some(Action::Branch(Test::GreaterOrEqual, Operand::InIndex)),
        code::JSET_K => Some(Action::Branch(Test::AnyBit, Operand::Constant)),
        code::JSET_X => Some(Action::Branch(Test::AnyBit, Operand::InIndex)),
        code::RET_K => Some(Action::ReturnConstant),
        code::RET_A => Some(Action::ReturnAccumulator),
        _ => None,
    }
}

/// What an instruction of a code does, if the code is known.
pub fn action_of(code: u16) -> Option<Action>
    ensures { IfSome result (IsAction (operation_of code)) }
{
    if let Some((to, source)) = load_of(code) {
        return Some(Action::Load(to, source));
    }
    if let Some((operator, operand)) = calculation_of(code) {
        return Some(Action::Load(
            Register::Accumulator,
            LoadSource::Calculated(operator, operand),
        ));
    }
    control_of(code)
}
