//! Instructions, whose jumps lead to labels or places.

ghost use Rattle.std.specs.Prelude.{◌≡◌, option_map};
ghost use Rattle.bpf_asm.specs.Instructions.{literal_code, cell_code, bare_code, load_word_code, load_bytes_code, load_code, load_index_code, header_length_code, return_code, pair_code, code_of, end_of, plain_at, target_at, last_target, jump_at, second_way, labelled_ways, where_false_at, placed_ways, ways_at, branch_at, branch_if, branch_unless, instruction_of};

use crate::operands::{Operand, next, operand_at};
use crate::token::{Label, Name, Size, Token};
use bpfvm::code;

/// Where a jump leads.
#[derive(Clone, Copy, Debug, PartialEq, Eq)]
pub(crate) enum Target {
    /// The instruction that follows.
    Next,
    Label(Label),
    /// A place of the program, from 0.
    Place(u32),
}

/// An instruction.
#[derive(Clone, Copy, Debug, PartialEq, Eq)]
pub(crate) enum Instruction {
    /// One that does not jump: its code and its operand.
    Plain(u16, u32),
    Jump(Target),
    /// A conditional jump: its code, its operand, and where it leads if its test holds and if not.
    Branch(u16, u32, Target, Target),
}

/// The code and the operand, if that is a literal.
fn literal_code(code: u16, operand: Operand) -> Option<(u16, u32)>
    ensures { result ≡ literal_code code operand }
{
    match operand {
        Operand::Literal(k) => Some((code, k)),
        _ => None,
    }
}

/// The same of a cell of the scratch memory.
fn cell_code(code: u16, operand: Operand) -> Option<(u16, u32)>
    ensures { result ≡ cell_code code operand }
{
    match operand {
        Operand::Cell(k) => Some((code, k)),
        _ => None,
    }
}

/// The code, if there is no operand.
fn bare_code(code: u16, operand: Operand) -> Option<(u16, u32)>
    ensures { result ≡ bare_code code operand }
{
    match operand {
        Operand::Nothing => Some((code, 0)),
        _ => None,
    }
}

/// The code and the operand of `ld`.
fn load_word_code(operand: Operand) -> Option<(u16, u32)>
    ensures { result ≡ load_word_code operand }
{
    match operand {
        Operand::Packet(k) => Some((code::LD_W_ABS, k)),
        Operand::PacketAtIndex(k) => Some((code::LD_W_IND, k)),
        Operand::Literal(k) => Some((code::LD_IMM, k)),
        Operand::Cell(k) => Some((code::LD_MEM, k)),
        Operand::Length => Some((code::LD_LEN, 0)),
        _ => None,
    }
}

/// The code and operand of `ldh` and `ldb`: at an offset, or at the index register plus an offset.
fn load_bytes_code(direct: u16, indirect: u16, operand: Operand) -> Option<(u16, u32)>
    ensures { result ≡ load_bytes_code direct indirect operand }
{
    match operand {
        Operand::Packet(k) => Some((direct, k)),
        Operand::PacketAtIndex(k) => Some((indirect, k)),
        _ => None,
    }
}

/// The code and the operand of a load into the accumulator.
fn load_code(size: Size, operand: Operand) -> Option<(u16, u32)>
    ensures { result ≡ load_code size operand }
{
    match size {
        Size::Word => load_word_code(operand),
        Size::Half => load_bytes_code(code::LD_H_ABS, code::LD_H_IND, operand),
        Size::Byte => load_bytes_code(code::LD_B_ABS, code::LD_B_IND, operand),
    }
}

/// Those of `ldx`.
fn load_index_code(operand: Operand) -> Option<(u16, u32)>
    ensures { result ≡ load_index_code operand }
{
    match operand {
        Operand::Literal(k) => Some((code::LDX_IMM, k)),
        Operand::Cell(k) => Some((code::LDX_MEM, k)),
        Operand::Length => Some((code::LDX_LEN, 0)),
        Operand::HeaderLength(k) => Some((code::LDX_MSH, k)),
        _ => None,
    }
}

/// Those of `ldxb`.
fn header_length_code(operand: Operand) -> Option<(u16, u32)>
    ensures { result ≡ header_length_code operand }
{
    match operand {
        Operand::HeaderLength(k) => Some((code::LDX_MSH, k)),
        _ => None,
    }
}

/// Those of `ret`.
fn return_code(operand: Operand) -> Option<(u16, u32)>
    ensures { result ≡ return_code operand }
{
    match operand {
        Operand::Literal(k) => Some((code::RET_K, k)),
        Operand::Accumulator | Operand::Nothing => Some((code::RET_A, 0)),
        _ => None,
    }
}

/// The code and the operand of arithmetic or a test, which has one code with a constant and another
/// one with the index register.
fn pair_code(constant: u16, index: u16, operand: Operand) -> Option<(u16, u32)>
    ensures { result ≡ pair_code constant index operand }
{
    match operand {
        Operand::Literal(k) => Some((constant, k)),
        Operand::Index => Some((index, 0)),
        _ => None,
    }
}

/// The code and the operand of an instruction that does not jump, if it takes an operand of this
/// form.
fn code_of(name: Name, operand: Operand) -> Option<(u16, u32)>
    ensures { result ≡ code_of name operand }
{
    match name {
        Name::Load(size) => load_code(size, operand),
        Name::LoadImmediate => literal_code(code::LD_IMM, operand),
        Name::LoadIndex => load_index_code(operand),
        Name::LoadIndexImmediate => literal_code(code::LDX_IMM, operand),
        Name::LoadHeaderLength => header_length_code(operand),
        Name::Store => cell_code(code::ST, operand),
        Name::StoreIndex => cell_code(code::STX, operand),
        Name::Calculate(constant, index) => pair_code(constant, index, operand),
        Name::Negate => bare_code(code::NEG, operand),
        Name::ToIndex => bare_code(code::TAX, operand),
        Name::ToAccumulator => bare_code(code::TXA, operand),
        Name::Return => return_code(operand),
        Name::Jump | Name::JumpIf(..) | Name::JumpUnless(..) => None,
    }
}

/// Whether the line ends here.
fn end_of(tokens: &[Token]) -> Option<()>
    ensures { result ≡ end_of tokens.now }
{
    match tokens {
        [] => Some(()),
        _ => None,
    }
}

/// An instruction that does not jump, from what follows its name.
fn plain_at(name: Name, tokens: &[Token]) -> Option<Instruction>
    ensures { result ≡ plain_at name tokens.now }
{
    let (operand, rest) = operand_at(tokens)?;
    end_of(rest)?;
    let (code, k) = code_of(name, operand)?;
    Some(Instruction::Plain(code, k))
}

/// The target at the front, and what follows it.
fn target_at(tokens: &[Token]) -> Option<(Target, &[Token])>
    ensures { option_map (λ found. (found.0, found.1.now)) result ≡ target_at tokens.now }
{
    match next(tokens) {
        Some((Token::Label(label), rest)) => Some((Target::Label(label), rest)),
        Some((Token::Number(place), rest)) => Some((Target::Place(place), rest)),
        _ => None,
    }
}

/// The target with which a line ends.
fn last_target(tokens: &[Token]) -> Option<Target>
    ensures { result ≡ last_target tokens.now }
{
    let (target, rest) = target_at(tokens)?;
    end_of(rest)?;
    Some(target)
}

/// A jump, from what follows its name.
fn jump_at(tokens: &[Token]) -> Option<Instruction>
    ensures { result ≡ jump_at tokens.now }
{
    let target = last_target(tokens)?;
    Some(Instruction::Jump(target))
}

/// The other way of a conditional jump, after the one that is taken if the test holds. Without it
/// the jump goes on at the next instruction.
fn second_way(tokens: &[Token]) -> Option<Target>
    ensures { result ≡ second_way tokens.now }
{
    match next(tokens) {
        None => Some(Target::Next),
        Some((Token::Comma, rest)) => last_target(rest),
        _ => None,
    }
}

/// Both ways after a `,`.
fn labelled_ways(tokens: &[Token]) -> Option<(Target, Target)>
    ensures { result ≡ labelled_ways tokens.now }
{
    let (first, rest) = target_at(tokens)?;
    let second = second_way(rest)?;
    Some((first, second))
}

/// What follows the `jf` at the front.
fn where_false_at(tokens: &[Token]) -> Option<&[Token]>
    ensures { option_map (λ rest. rest.now) result ≡ where_false_at tokens.now }
{
    match next(tokens) {
        Some((Token::WhereFalse, rest)) => Some(rest),
        _ => None,
    }
}

/// Both ways after a `jt`.
fn placed_ways(tokens: &[Token]) -> Option<(Target, Target)>
    ensures { result ≡ placed_ways tokens.now }
{
    let (first, rest) = target_at(tokens)?;
    let rest = where_false_at(rest)?;
    let second = last_target(rest)?;
    Some((first, second))
}

/// Both ways of a conditional jump, from what follows its operand: `, L`, `, L, L` or `jt L jf L`.
fn ways_at(tokens: &[Token]) -> Option<(Target, Target)>
    ensures { result ≡ ways_at tokens.now }
{
    match next(tokens) {
        Some((Token::Comma, rest)) => labelled_ways(rest),
        Some((Token::WhereTrue, rest)) => placed_ways(rest),
        _ => None,
    }
}

/// A conditional jump, from what follows its name.
fn branch_at(constant: u16, index: u16, tokens: &[Token]) -> Option<(u16, u32, Target, Target)>
    ensures { result ≡ branch_at constant index tokens.now }
{
    let (operand, rest) = operand_at(tokens)?;
    let (code, k) = pair_code(constant, index, operand)?;
    let (first, second) = ways_at(rest)?;
    Some((code, k, first, second))
}

/// The same, which jumps if its test holds.
fn branch_if(constant: u16, index: u16, tokens: &[Token]) -> Option<Instruction>
    ensures { result ≡ branch_if constant index tokens.now }
{
    let (code, k, first, second) = branch_at(constant, index, tokens)?;
    Some(Instruction::Branch(code, k, first, second))
}

/// The same, which jumps if its test fails.
fn branch_unless(constant: u16, index: u16, tokens: &[Token]) -> Option<Instruction>
    ensures { result ≡ branch_unless constant index tokens.now }
{
    let (code, k, first, second) = branch_at(constant, index, tokens)?;
    Some(Instruction::Branch(code, k, second, first))
}

/// An instruction, from its name and what follows it on its line.
pub(crate) fn instruction_of(name: Name, tokens: &[Token]) -> Option<Instruction>
    ensures { result ≡ instruction_of name tokens.now }
{
    match name {
        Name::Jump => jump_at(tokens),
        Name::JumpIf(constant, index) => branch_if(constant, index, tokens),
        Name::JumpUnless(constant, index) => branch_unless(constant, index, tokens),
        _ => plain_at(name, tokens),
    }
}
