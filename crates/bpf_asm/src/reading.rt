//! Texts read as programs.

ghost use Rattle.std.specs.Prelude.{◌≡◌, ◌≢◌, ◌∷◌, [], ◌++◌, All, ◌<◌, ◌^◌, List, Ok, IfOk, IfErr, IfSome, IfNone, IsOkUnless, length};
ghost use Rattle.std.specs.List.{slice_split};
ghost use Rattle.bpfvm.specs.declared.insn.Insn.{Insn};
ghost use Rattle.bpfvm.specs.Validity.{IsValidProgram};
ghost use Rattle.bpf_asm.specs.declared.fault.AssemblyFault.TheVariants.{NoMemory};
ghost use Rattle.bpf_asm.specs.Lines.{line_of};
ghost use Rattle.bpf_asm.specs.Assembly.{at_line, is_line_feed, lines_from, assembled};
ghost use Rattle.bpf_asm.specs.Answers.{Agrees, IsRefused};

use crate::assembling::assemble;
use crate::fault::AssemblyFault;
use crate::lexer::tokens_of;
use crate::line::{Line, line_at};
use bpfvm::Program;
use std::alloc::Global;

/// The most bytes of a text.
pub const MAX_TEXT: usize = 65_536;

// Clauses and definitions name the constant: it is this number.
const _: () = prove!(MAX_TEXT == 65536);

/// What comes before the first line feed, and after it.
fn split_line(text: &[u8]) -> Option<(&[u8], &[u8])>
    ensures parts { IfSome result (λ parts. text.now ≡ parts.0.now ++ 10 ∷ parts.1.now) }
    ensures first { IfSome result (λ parts. All (λ byte. byte ≢ 10) parts.0.now) }
    ensures none { IfNone result (All (λ byte. byte ≢ 10) text.now) }
    ensures shorter { IfSome result (λ parts. length parts.1.now < length text.now) }
{
    let place = text.iter().position(|byte| *byte == b'\n')?;
    Some((&text[..place], &text[place + 1..]))
}

/// The first line of a text, and what follows its line feed, if it has one.
fn cut_line(text: &[u8]) -> (&[u8], Option<&[u8]>)
    ensures more { IfSome result.1 (λ rest. slice_split is_line_feed text.now ≡ result.0.now ∷ slice_split is_line_feed rest.now) }
    ensures last { IfNone result.1 (slice_split is_line_feed text.now ≡ result.0.now ∷ []) }
    ensures shorter { IfSome result.1 (λ rest. length rest.now < length text.now) }
{
    match split_line(text) {
        Some((line, rest)) => (line, Some(rest)),
        None => (text, None),
    }
}

/// What a line says, which has this number.
#[tactic(auto, unfolding(crate::specs::Lines::line_of))]
fn read_line(alloc: Global, text: &[u8], number: usize) -> Result<Line, AssemblyFault>
    ensures { Agrees (λ line. line) result (at_line number (line_of text.now)) }
{
    let tokens = tokens_of(alloc, text, number)?;
    match line_at(&tokens) {
        Ok(line) => Ok(line),
        Err(cause) => Err(AssemblyFault::Line(number, cause)),
    }
}

/// What the lines of a text say.
fn read_lines(alloc: Global, text: &[u8]) -> Result<Vec<Line>, AssemblyFault>
    requires { length text.now < 2 ^ 32 }
    ensures { Agrees (λ lines. lines.items) result (lines_from 1 (slice_split is_line_feed text.now)) }
{
    let mut lines = Vec::new(alloc);
    let mut number = 1;
    let mut rest = text;
    'texts: loop {
        let (line, more) = cut_line(rest);
        lines.push(read_line(alloc, line, number)?)?;
        let Some(more) = more else {
            return Ok(lines);
        };
        rest = more;
        number += 1;
    }
}

/// The program that a text is assembly of.
///
/// The notation is that of Linux's bpf_asm and of bpfc(8), and that of the image which `tcpdump -d`
/// prints: docs/ASSEMBLY.md has its grammar. A jump leads forward, to a label or to a place of the
/// program. If a conditional jump has no second label, the next instruction is its second way. Each
/// field that an instruction does not use is 0.
///
/// `TextTooLong` comes first. Then come the faults of lines, each with the number of its line and
/// its [`Cause`](crate::Cause): first what is wrong with a line by itself, then with its label,
/// place and jumps. In both, the first such line is named. `Program` comes if the instructions are
/// no program, as [`Program::new`] says. `NoMemory` may come at any time: no clause says that
/// memory was refused.
#[tactic(auto, unfolding(crate::specs::Assembly::assembled))]
pub fn read_assembly(alloc: Global, text: &[u8]) -> Result<Program, AssemblyFault>
    ensures ok { IfOk result (λ program. assembled text.now ≡ Ok program) }
    ensures only { (program : List Insn) → assembled text.now ≡ Ok program → IsValidProgram program → IsOkUnless result NoMemory }
    ensures fault { IfErr result (IsRefused text.now) }
{
    if text.len() > MAX_TEXT {
        return Err(AssemblyFault::TextTooLong);
    }
    let lines = read_lines(alloc, text)?;
    let insns = assemble(alloc, &lines)?;
    match Program::new(&insns) {
        Ok(program) => Ok(program),
        Err(fault) => Err(AssemblyFault::Program(fault)),
    }
}
