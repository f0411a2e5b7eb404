//! Programs as arrays of C.

ghost use Rattle.std.specs.Prelude.{◌≡◌, ◌++◌, IfOk, Some};
ghost use Rattle.std.specs.String.{string_bytes};
ghost use Rattle.bpf_asm.specs.Arrays.{hex, hex_of_8, element_text, array_of};

use bpfvm::{Insn, NoMemory, Program};
use std::alloc::Global;
use std::fmt;
use std::fmt::{Display, Formatter, Write};

/// A number as C's `%x` prints it.
#[derive(Clone, Copy)]
struct Hexadecimal(u32);

impl Display for Hexadecimal {
    ghost output = { λ number. Some (hex number.0) };

    fn fmt<W: Write>(&self, f: &mut Formatter<W>) -> fmt::Result {
        write!(f, "{:x}", self.0)
    }
}

/// A number as C's `%08x` prints it.
#[derive(Clone, Copy)]
struct EightDigits(u32);

impl Display for EightDigits {
    ghost output = { λ number. Some (hex_of_8 number.0) };

    fn fmt<W: Write>(&self, f: &mut Formatter<W>) -> fmt::Result {
        write!(f, "{:08x}", self.0)
    }
}

/// Appends the line of an instruction.
fn write_element(text: &mut String, insn: &Insn) -> Result<(), NoMemory>
    ensures { IfOk result (λ _. string_bytes text.new ≡ string_bytes text.old ++ element_text insn.now) }
{
    let Insn { code, jt, jf, k } = *insn;
    let code = Hexadecimal(u32::from(code));
    let k = EightDigits(k);
    write!(text, "{{ 0x{code}, {jt}, {jf}, 0x{k} }},\n")?;
    Ok(())
}

/// The instructions of a program as the elements of an array of C's `struct bpf_insn`, a line for
/// each, to the byte as `tcpdump -dd` prints them.
///
/// `NoMemory` if memory for the text was refused.
pub fn write_array(alloc: Global, program: &Program) -> Result<Vec<u8>, NoMemory>
    ensures { IfOk result (λ text. text.items ≡ array_of program.now) }
{
    let insns = program.insns();
    let mut text = String::new(alloc);
    for insn in insns {
        write_element(&mut text, insn)?;
    }
    Ok(text.into_bytes())
}
