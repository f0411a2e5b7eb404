//! Programs by the names of their instructions, as `tcpdump -d` prints them.

ghost use Rattle.std.specs.Prelude.{◌≡◌, ◌<◌, ◌≤◌, ◌^◌, ◌++◌, IfOk, Some, codes};
ghost use Rattle.std.specs.Fmt.{WritesOnOk};
ghost use Rattle.bpfvm.specs.Codes.{operation_of};
ghost use Rattle.bpfvm.specs.Images.{signed, hexadecimal, column, name_of, insn_text, brief_text, placed_text, image_of};
ghost use Rattle.bpfvm.specs.Naming.{Forms, signed_in, operand_in, operands_in};

use crate::code;
use crate::fault::NoMemory;
use crate::insn::Insn;
use crate::program::Program;
use std::alloc::Global;
use std::fmt;
use std::fmt::{Display, Formatter, Write};

/// How the operand of an instruction is written.
#[derive(Clone, Copy)]
enum OperandForm {
    Nothing,
    /// `x`: the index register.
    InIndex,
    /// `#12`, with a sign, as libpcap prints it.
    Signed,
    /// `#0xc`
    Hexadecimal,
    /// `#pktlen`: the length on the wire.
    WireLength,
    /// `[12]`: bytes of the packet.
    Packet,
    /// `[x + 12]`
    PacketAtIndex,
    /// `4*([14]&0xf)`: the length of an IPv4 header.
    HeaderLength,
    /// `M[3]`: a cell of the scratch memory.
    Cell,
    /// The place that a jump leads to.
    Target,
    /// As `InIndex`, of a conditional jump.
    TestInIndex,
    /// As `Hexadecimal`, of a conditional jump.
    TestHexadecimal,
    /// The number of a code that has no name.
    Code,
}

/// The name of a code.
///
/// Codes that follow one another have arms of their own, since the proof goes by the code.
fn name_of(code: u16) -> &'static str
    ensures { result.now ≡ name_of (operation_of code) }
{
    match code {
        code::LD_W_ABS | code::LD_W_IND | code::LD_IMM | code::LD_MEM | code::LD_LEN => "ld",
        code::LD_H_ABS => "ldh",
        code::LD_H_IND => "ldh",
        code::LD_B_ABS => "ldb",
        code::LD_B_IND => "ldb",
        code::LDX_IMM | code::LDX_MEM | code::LDX_LEN => "ldx",
        code::LDX_MSH => "ldxb",
        code::ST => "st",
        code::STX => "stx",
        code::ADD_K | code::ADD_X => "add",
        code::SUB_K | code::SUB_X => "sub",
        code::MUL_K | code::MUL_X => "mul",
        code::DIV_K | code::DIV_X => "div",
        code::OR_K | code::OR_X => "or",
        code::AND_K | code::AND_X => "and",
        code::LSH_K | code::LSH_X => "lsh",
        code::RSH_K | code::RSH_X => "rsh",
        code::MOD_K | code::MOD_X => "mod",
        code::XOR_K | code::XOR_X => "xor",
        code::NEG => "neg",
        code::JA => "ja",
        code::JEQ_K | code::JEQ_X => "jeq",
        code::JGT_K | code::JGT_X => "jgt",
        code::JGE_K | code::JGE_X => "jge",
        code::JSET_K | code::JSET_X => "jset",
        code::RET_K | code::RET_A => "ret",
        code::TAX => "tax",
        code::TXA => "txa",
        _ => "unimp",
    }
}

/// How the operand of a code is written.
///
/// Codes that follow one another have arms of their own, since the proof goes by the code.
fn form_of(code: u16) -> OperandForm
    ensures { Forms code result }
{
    match code {
        code::LD_W_ABS | code::LD_H_ABS | code::LD_B_ABS => OperandForm::Packet,
        code::LD_W_IND | code::LD_H_IND | code::LD_B_IND => OperandForm::PacketAtIndex,
        code::LDX_MSH => OperandForm::HeaderLength,
        code::LD_LEN => OperandForm::WireLength,
        code::LDX_LEN => OperandForm::WireLength,
        code::LD_MEM | code::ST => OperandForm::Cell,
        code::LDX_MEM | code::STX => OperandForm::Cell,
        code::LD_IMM | code::OR_K | code::AND_K | code::XOR_K => OperandForm::Hexadecimal,
        code::LDX_IMM => OperandForm::Hexadecimal,
        code::ADD_K
        | code::SUB_K
        | code::MUL_K
        | code::DIV_K
        | code::MOD_K
        | code::LSH_K
        | code::RSH_K => OperandForm::Signed,
        code::RET_K => OperandForm::Signed,
        code::ADD_X | code::SUB_X | code::MUL_X | code::DIV_X | code::MOD_X => OperandForm::InIndex,
        code::OR_X | code::AND_X | code::XOR_X | code::LSH_X | code::RSH_X => OperandForm::InIndex,
        code::JA => OperandForm::Target,
        code::JEQ_K | code::JGT_K | code::JGE_K | code::JSET_K => OperandForm::TestHexadecimal,
        code::JEQ_X | code::JGT_X | code::JGE_X | code::JSET_X => OperandForm::TestInIndex,
        code::NEG => OperandForm::Nothing,
        code::RET_A | code::TAX | code::TXA => OperandForm::Nothing,
        _ => OperandForm::Code,
    }
}

/// A number as libpcap prints some operands: with a sign, in two's complement.
#[derive(Clone, Copy)]
struct Signed(u32);

impl Display for Signed {
    ghost output = { λ number. Some (signed number.0) };

    fn fmt<W: Write>(&self, f: &mut Formatter<W>) -> fmt::Result {
        if self.0 < 1 << 31 {
            write!(f, "{}", self.0)
        } else {
            write!(f, "-{}", (1u64 << 32) - u64::from(self.0))
        }
    }
}

/// A number as libpcap prints bits.
#[derive(Clone, Copy)]
struct Hexadecimal(u32);

impl Display for Hexadecimal {
    ghost output = { λ number. Some (hexadecimal number.0) };

    fn fmt<W: Write>(&self, f: &mut Formatter<W>) -> fmt::Result {
        write!(f, "0x{:x}", self.0)
    }
}

/// A number as the operand of a conditional jump, in its column.
#[derive(Clone, Copy)]
struct HexadecimalColumn(u32);

impl Display for HexadecimalColumn {
    ghost output = { λ number. Some (column 16 (codes "#" ++ hexadecimal number.0)) };

    fn fmt<W: Write>(&self, f: &mut Formatter<W>) -> fmt::Result {
        write!(f, "#0x{:<13x}", self.0)
    }
}

/// Writes an operand that has a number with a sign.
#[inline]
fn write_signed<W: Write>(f: &mut Formatter<W>, k: Signed, form: OperandForm) -> fmt::Result
    ensures { WritesOnOk W.write_str_gives f.old result (signed_in form k.0) f.new }
{
    match form {
        OperandForm::Packet => write!(f, "[{k}]"),
        OperandForm::PacketAtIndex => write!(f, "[x + {k}]"),
        OperandForm::HeaderLength => write!(f, "4*([{k}]&0xf)"),
        OperandForm::Cell => write!(f, "M[{k}]"),
        _ => write!(f, "#{k}"),
    }
}

/// Writes the operand of an instruction; the next one has this place.
fn write_operand<W: Write>(
    f: &mut Formatter<W>,
    next: u64,
    insn: &Insn,
    form: OperandForm,
) -> fmt::Result
    requires { next ≤ 2 ^ 32 }
    ensures writes { WritesOnOk W.write_str_gives f.old result (operand_in form next insn.now) f.new }
    ensures fits { insn.now.k < 2 ^ 32 }
{
    let bits = Hexadecimal(insn.k);
    match form {
        OperandForm::Nothing => Ok(()),
        OperandForm::InIndex | OperandForm::TestInIndex => f.write_str("x"),
        OperandForm::Hexadecimal | OperandForm::TestHexadecimal => write!(f, "#{bits}"),
        OperandForm::WireLength => f.write_str("#pktlen"),
        OperandForm::Target => write!(f, "{}", next + u64::from(insn.k)),
        OperandForm::Code => write!(f, "{}", Hexadecimal(u32::from(insn.code))),
        OperandForm::Signed
        | OperandForm::Packet
        | OperandForm::PacketAtIndex
        | OperandForm::HeaderLength
        | OperandForm::Cell => { write_signed(f, Signed(insn.k), form) }
    }
}

/// Writes the operand, and for a conditional jump the places where it goes on.
fn write_operands<W: Write>(
    f: &mut Formatter<W>,
    next: u64,
    insn: &Insn,
    form: OperandForm,
) -> fmt::Result
    requires { next ≤ 2 ^ 32 }
    ensures { WritesOnOk W.write_str_gives f.old result (operands_in form next insn.now) f.new }
{
    let jt = next + u64::from(insn.jt);
    let jf = next + u64::from(insn.jf);
    match form {
        OperandForm::TestInIndex => write!(f, "x                jt {jt}\tjf {jf}"),
        OperandForm::TestHexadecimal => {
            let bits = HexadecimalColumn(insn.k);
            write!(f, "{bits} jt {jt}\tjf {jf}")
        }
        _ => write_operand(f, next, insn, form),
    }
}

/// Writes an instruction; the next one has this place.
fn write_insn<W: Write>(f: &mut Formatter<W>, next: u64, insn: &Insn) -> fmt::Result
    requires { next ≤ 2 ^ 32 }
    ensures { WritesOnOk W.write_str_gives f.old result (insn_text next insn.now) f.new }
{
    let name = name_of(insn.code);
    write!(f, "{name:<8} ")?;
    write_operands(f, next, insn, form_of(insn.code))
}

/// An instruction as `tcpdump -d` prints it, without its place: `ldh      [12]`,
/// `jeq      #0x800           jt 0\tjf 5`.
///
/// An instruction without its program has no place, so a jump is printed with how many instructions
/// it passes. An unknown code is `unimp` with its number.
impl Display for Insn {
    ghost output = { λ insn. Some (insn_text 0 insn) };

    fn fmt<W: Write>(&self, f: &mut Formatter<W>) -> fmt::Result {
        write_insn(f, 0, self)
    }
}

/// An instruction's name and operand, with one space between them: `ldh [12]`, `ret`. A conditional
/// jump is printed without the places it leads to.
#[derive(Clone, Copy)]
pub struct Brief<'a>(pub &'a Insn);

impl Display for Brief<'_> {
    ghost output = { λ insn. Some (brief_text insn.0.now) };

    fn fmt<W: Write>(&self, f: &mut Formatter<W>) -> fmt::Result {
        let form = form_of(self.0.code);
        f.write_str(name_of(self.0.code))?;
        match form {
            OperandForm::Nothing => Ok(()),
            _ => {
                f.write_str(" ")?;
                write_operand(f, 0, self.0, form)
            }
        }
    }
}

/// The instruction at a place of a program, from 0, as `tcpdump -d` prints its line:
/// `(001) jeq      #0x800           jt 2\tjf 5`. A jump has the places that it leads to.
#[derive(Clone, Copy)]
pub struct PlacedInsn<'a> {
    pub place: u32,
    pub insn: &'a Insn,
}

impl Display for PlacedInsn<'_> {
    ghost output = { λ placed. Some (placed_text placed.place placed.insn.now) };

    fn fmt<W: Write>(&self, f: &mut Formatter<W>) -> fmt::Result {
        write!(f, "({:03}) ", self.place)?;
        write_insn(f, u64::from(self.place) + 1, self.insn)
    }
}

/// The text of a program for a person to read, to the byte as `tcpdump -d` prints it: a line for
/// each instruction, with its name, such as `(000) ldh      [12]`. Places are counted from 0, and a
/// jump names the places that it leads to. Numbers are signed if libpcap's are. libpcap's printer
/// has no name for the load of the original length into the index register; here it is
/// `ldx #pktlen`.
///
/// `NoMemory` if memory for the text was refused.
pub fn write_image(alloc: Global, program: &Program) -> Result<Vec<u8>, NoMemory>
    ensures { IfOk result (λ text. text.items ≡ image_of program.now) }
{
    let insns = program.insns();
    let mut text = String::new(alloc);
    for (place, insn) in insns.iter().enumerate() {
        let place = place as u32;
        write!(text, "{}\n", PlacedInsn { place, insn })?;
    }
    Ok(text.into_bytes())
}
