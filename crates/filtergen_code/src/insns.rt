//! The instructions that the compiler emits.

ghost use Rattle.std.specs.Prelude.{◌≡◌};
ghost use Rattle.filtergen_code.specs.Insns.{plain_insn, branch_code, constant_of, branch_insn, load_insn, calculation_code, absolute_code, indirect_code};

use bpfvm::{Insn, code};
use filter_tree::headers::{ETHER_HDR_LEN, ETHER_TYPE, IP_OFF, IP_P};
use filter_tree::{Operator, Size};

/// Where what comes after the Ethernet header begins, as a constant of an instruction.
pub(crate) const NETWORK: u32 = ETHER_HDR_LEN as u32;

/// What a jump tests of the accumulator and its operand.
#[derive(Clone, Copy)]
pub(crate) enum Jump {
    Equal,
    Greater,
    GreaterOrEqual,
    AnyBit,
}

/// What the accumulator is compared or calculated with.
#[derive(Clone, Copy)]
pub(crate) enum Operand {
    Constant(u32),
    /// The index register.
    Index,
}

/// A number that one instruction loads, by its offset in the frame.
#[derive(Clone, Copy)]
pub(crate) enum Field {
    Byte(u32),
    Half(u32),
    Word(u32),
    /// The length on the wire.
    Length,
}

impl Field {
    pub const ETHER_TYPE: Field = Field::Half(ETHER_TYPE as u32);

    /// The flags and the fragment offset.
    pub const IP_OFF: Field = Field::Half(IP_OFF as u32);

    /// The protocol number.
    pub const IP_P: Field = Field::Byte(IP_P as u32);
}

/// An instruction that does not branch.
pub(crate) fn plain_insn(code: u16, k: u32) -> Insn
    ensures { result ≡ plain_insn code k }
{
    let (jt, jf) = (0, 0);
    Insn { code, jt, jf, k }
}

fn branch_code(jump: Jump, operand: Operand) -> u16
    ensures { result ≡ branch_code jump operand }
{
    match (jump, operand) {
        (Jump::Equal, Operand::Constant(_)) => code::JEQ_K,
        (Jump::Greater, Operand::Constant(_)) => code::JGT_K,
        (Jump::GreaterOrEqual, Operand::Constant(_)) => code::JGE_K,
        (Jump::AnyBit, Operand::Constant(_)) => code::JSET_K,
        (Jump::Equal, Operand::Index) => code::JEQ_X,
        (Jump::Greater, Operand::Index) => code::JGT_X,
        (Jump::GreaterOrEqual, Operand::Index) => code::JGE_X,
        (Jump::AnyBit, Operand::Index) => code::JSET_X,
    }
}

/// The constant of an instruction with this operand.
pub(crate) fn constant_of(operand: Operand) -> u32
    ensures { result ≡ constant_of operand }
{
    match operand {
        Operand::Constant(k) => k,
        Operand::Index => 0,
    }
}

/// A jump that passes `jt` instructions if its test holds, and else `jf`.
pub(crate) fn branch_insn(jump: Jump, operand: Operand, jt: u8, jf: u8) -> Insn
    ensures { result ≡ branch_insn jump operand jt jf }
{
    let (code, k) = (branch_code(jump, operand), constant_of(operand));
    Insn { code, jt, jf, k }
}

/// The load of a field into the accumulator.
pub(crate) fn load_insn(field: Field) -> Insn
    ensures { result ≡ load_insn field }
{
    match field {
        Field::Byte(offset) => plain_insn(code::LD_B_ABS, offset),
        Field::Half(offset) => plain_insn(code::LD_H_ABS, offset),
        Field::Word(offset) => plain_insn(code::LD_W_ABS, offset),
        Field::Length => plain_insn(code::LD_LEN, 0),
    }
}

/// The opcode that calculates with the accumulator and an operand.
pub(crate) fn calculation_code(operator: Operator, operand: Operand) -> u16
    ensures { result ≡ calculation_code operator operand }
{
    match (operator, operand) {
        (Operator::Plus, Operand::Constant(_)) => code::ADD_K,
        (Operator::Minus, Operand::Constant(_)) => code::SUB_K,
        (Operator::Times, Operand::Constant(_)) => code::MUL_K,
        (Operator::Divide, Operand::Constant(_)) => code::DIV_K,
        (Operator::Modulo, Operand::Constant(_)) => code::MOD_K,
        (Operator::BitAnd, Operand::Constant(_)) => code::AND_K,
        (Operator::BitXor, Operand::Constant(_)) => code::XOR_K,
        (Operator::BitOr, Operand::Constant(_)) => code::OR_K,
        (Operator::ShiftLeft, Operand::Constant(_)) => code::LSH_K,
        (Operator::ShiftRight, Operand::Constant(_)) => code::RSH_K,
        (Operator::Plus, Operand::Index) => code::ADD_X,
        (Operator::Minus, Operand::Index) => code::SUB_X,
        (Operator::Times, Operand::Index) => code::MUL_X,
        (Operator::Divide, Operand::Index) => code::DIV_X,
        (Operator::Modulo, Operand::Index) => code::MOD_X,
        (Operator::BitAnd, Operand::Index) => code::AND_X,
        (Operator::BitXor, Operand::Index) => code::XOR_X,
        (Operator::BitOr, Operand::Index) => code::OR_X,
        (Operator::ShiftLeft, Operand::Index) => code::LSH_X,
        (Operator::ShiftRight, Operand::Index) => code::RSH_X,
    }
}

/// The opcode of a load at an offset in the frame.
pub(crate) fn absolute_code(size: Size) -> u16
    ensures { result ≡ absolute_code size }
{
    match size {
        Size::One => code::LD_B_ABS,
        Size::Two => code::LD_H_ABS,
        Size::Four => code::LD_W_ABS,
    }
}

/// The opcode of a load at an offset from the index register.
pub(crate) fn indirect_code(size: Size) -> u16
    ensures { result ≡ indirect_code size }
{
    match size {
        Size::One => code::LD_B_IND,
        Size::Two => code::LD_H_IND,
        Size::Four => code::LD_W_IND,
    }
}
