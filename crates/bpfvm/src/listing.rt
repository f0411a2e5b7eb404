//! Listings: programs as text, as `tcpdump -ddd` prints them.

ghost use Rattle.std.specs.Prelude.{◌≡◌, ◌≢◌, ◌↔◌, ℕ, ◌+◌, ◌<◌, ◌≤◌, List, [], ◌∷◌, ◌++◌, length, take, All, IfOk, IfErr, IfSome, IfNone, Ok, Err};
ghost use Rattle.std.specs.String.{string_bytes};
ghost use Rattle.bpfvm.specs.declared.insn.Insn.{Insn};
ghost use Rattle.bpfvm.specs.Validity.{IsValidProgram};
ghost use Rattle.bpfvm.specs.Listing.{IsNumber, IsLine, AreLines, IsListing, IsRefusedListing, further_lines, lines_of, line_text, listing_of};
ghost use Rattle.bpfvm.specs.Lines.{AreFields, StopsAfter};
ghost use Rattle.bpfvm.specs.Laws.{HasFields};

use crate::fault::{Invalid, ListingFault, NoMemory};
use crate::insn::Insn;
use crate::program::{MAX_INSNS, Program};
use arrayvec::ArrayVec;
use std::alloc::Global;

/// The text before the first such byte, and the text after it.
pub fn split_once(text: &[u8], at: u8) -> Option<(&[u8], &[u8])>
    ensures parts { IfSome result (λ parts. text.now ≡ parts.0.now ++ at ∷ parts.1.now) }
    ensures first { IfSome result (λ parts. All (λ byte. byte ≢ at) parts.0.now) }
    ensures none { IfNone result (All (λ byte. byte ≢ at) text.now) }
{
    let place = text.iter().position(|byte| *byte == at)?;
    Some((&text[..place], &text[place + 1..]))
}

/// The first line of a text, without its end, and the text after it.
fn first_line(text: &[u8]) -> (&[u8], &[u8])
    ensures first { lines_of text.now ≡ result.0.now ∷ further_lines result.1.now }
    ensures shorter { text.now ≢ [] → length result.1.now < length text.now }
{
    match split_once(text, b'\n') {
        Some(parts) => parts,
        None => (text, &[]),
    }
}

/// A number up to the greatest one, in decimal digits only. Leading zeros are fine; a sign, a blank
/// or no digit is refused.
pub fn number(text: &[u8], most: u64) -> Option<u64>
    ensures some { IfSome result (λ n. IsNumber most text.now n) }
    ensures none { IfNone result ((n : ℕ) → IsNumber most text.now n → ⊥) }
{
    if text.is_empty() {
        return None;
    }
    let mut n = 0;
    for byte in text {
        if !byte.is_ascii_digit() {
            return None;
        }
        n = 10 * n + u128::from(*byte - b'0');
        if n > u128::from(most) {
            return None;
        }
    }
    Some(n as u64)
}

/// The instruction that has these fields, each in decimal.
fn insn_from(code: &[u8], jt: &[u8], jf: &[u8], k: &[u8]) -> Option<Insn>
    ensures some { IfSome result (λ insn. AreFields code.now jt.now jf.now k.now insn) }
    ensures none { IfNone result ((insn : Insn) → AreFields code.now jt.now jf.now k.now insn → ⊥) }
{
    let code = number(code, u64::from(u16::MAX))?;
    let jt = number(jt, u64::from(u8::MAX))?;
    let jf = number(jf, u64::from(u8::MAX))?;
    let k = number(k, u64::from(u32::MAX))?;
    Some(Insn {
        code: code as u16,
        jt: jt as u8,
        jf: jf as u8,
        k: k as u32,
    })
}

/// The instruction of a line, `code jt jf k`.
fn insn_of(line: &[u8]) -> Option<Insn>
    ensures some { IfSome result (λ insn. IsLine line.now insn) }
    ensures none { IfNone result ((insn : Insn) → IsLine line.now insn → ⊥) }
{
    let (code, rest) = split_once(line, b' ')?;
    let (jt, rest) = split_once(rest, b' ')?;
    let (jf, k) = split_once(rest, b' ')?;
    insn_from(code, jt, jf, k)
}

/// The instructions of lines: the first of them, as many as a program has, and how many there are.
#[derive(Drop)]
struct Listed {
    insns: ArrayVec<Insn, MAX_INSNS>,
    count: usize,
}

/// Appends an instruction if there is room for it.
fn keep(kept: &mut ArrayVec<Insn, MAX_INSNS>, insn: Insn)
    ensures { (insns : List Insn) → kept.old.items ≡ take MAX_INSNS insns → kept.new.items ≡ take MAX_INSNS (insns ++ insn ∷ []) }
{
    if !kept.is_full() {
        kept.push(insn);
    }
}

/// Reads further lines. If one is no instruction, the error is the number of lines before it.
fn read_lines(text: &[u8]) -> Result<Listed, usize>
    ensures ok { IfOk result (λ listed. (insns : List Insn) × AreLines (further_lines text.now) insns
        × (listed.count ≡ length insns) × (listed.insns.items ≡ take MAX_INSNS insns)) }
    ensures bad { IfErr result (StopsAfter (further_lines text.now)) }
    ensures small { IfErr result (λ good. good ≤ length text.now) }
{
    let mut listed = Listed {
        insns: ArrayVec::new(),
        count: 0,
    };
    let mut rest = text;
    while !rest.is_empty() {
        let (line, after) = first_line(rest);
        let Some(insn) = insn_of(line) else {
            return Err(listed.count);
        };
        keep(&mut listed.insns, insn);
        listed.count += 1;
        rest = after;
    }
    Ok(listed)
}

/// Reads a listing: the number of the instructions on the first line, and `code jt jf k` on each
/// other one, in decimal.
///
/// Lines end with byte 10, which the last one may lack. A number may have leading zeros, but no
/// sign. No other space and no carriage return is accepted. It takes no memory.
///
/// `BadLine` names the first malformed line, counted from 1; then comes `Count`, if the first line
/// is not the number of the further ones; then `Program`, as [`Program::new`] says.
pub fn read_listing(text: &[u8]) -> Result<Program, ListingFault>
    ensures ok { IfOk result (λ program. IsListing text.now program × IsValidProgram program) }
    ensures only { (program : List Insn) → IsListing text.now program → IsValidProgram program → result ≡ Ok program }
    ensures fault { (fault : ListingFault) → (result ≡ Err fault) ↔ IsRefusedListing text.now fault }
{
    let (first, others) = first_line(text);
    let Some(count) = number(first, u32::MAX as u64) else {
        return Err(ListingFault::BadLine(1));
    };
    let listed = match read_lines(others) {
        Ok(listed) => listed,
        Err(good) => return Err(ListingFault::BadLine(good + 2)),
    };
    if listed.count != count as usize {
        return Err(ListingFault::Count);
    }
    if listed.count > MAX_INSNS {
        return Err(ListingFault::Program(Invalid::TooMany));
    }
    match Program::new(&listed.insns) {
        Ok(program) => Ok(program),
        Err(fault) => Err(ListingFault::Program(fault)),
    }
}

/// Appends the line of an instruction.
fn write_line(text: &mut String, insn: &Insn) -> Result<(), NoMemory>
    ensures text { IfOk result (λ _. string_bytes text.new ≡ string_bytes text.old ++ line_text insn.now) }
    ensures fields { HasFields insn.now }
{
    let Insn { code, jt, jf, k } = *insn;
    write!(text, "{code} {jt} {jf} {k}\n")?;
    Ok(())
}

/// The listing of a program, with a line feed after every line and no leading zeros.
/// [`read_listing`] reads it back.
///
/// `NoMemory` if memory for the text was refused.
pub fn write_listing(alloc: Global, program: &Program) -> Result<Vec<u8>, NoMemory>
    ensures text { IfOk result (λ text. text.items ≡ listing_of program.now) }
    ensures read { IfOk result (λ text. IsListing text.items program.now) }
{
    let insns = program.insns();
    let mut text = String::new(alloc);
    write!(text, "{}\n", insns.len())?;
    for insn in insns {
        write_line(&mut text, insn)?;
    }
    Ok(text.into_bytes())
}
