//! Filter expressions, compiled.

ghost use Rattle.std.specs.Prelude.{◌≡◌, IfErr, IfOk, IsUtf8, Result, List};
ghost use Rattle.bpfvm.specs.declared.insn.Insn.{Insn};
ghost use Rattle.filter_tree.specs.Trees.{tree_of};
ghost use Rattle.bpftap_c.specs.declared.outcome.Failure.{Failure};
ghost use Rattle.bpftap_c.specs.Filters.{IsNotText, IsCompiled};
ghost use Rattle.bpftap_c.specs.Insns.{insns_of};
ghost use Rattle.bpftap_c.specs.Memory.{Delivers};
ghost use Rattle.bpftap_c.specs.Texts.{IsRead, IsUnread};

use crate::insns::{BpftapInsn, put_insns};
use crate::outcome::{BpftapResult, Failure, failed};
use bpfvm::Program;
use filter_tree::Expr;
use filtergen::{ExpressionFault, compile_text};
use filterlang::parse;
use std::alloc::Global;

/// The text that bytes are.
pub(crate) fn text_of(bytes: &[u8]) -> Result<&str, Failure>
    ensures text { IfOk result (λ text. text.now ≡ bytes.now) }
    ensures utf8 { IfOk result (λ _. IsUtf8 bytes.now) }
    ensures not_text { IfErr result (IsNotText bytes.now) }
{
    match str::from_utf8(bytes) {
        Ok(text) => Ok(text),
        Err(error) => Err(Failure::NotText(error.valid_up_to())),
    }
}

/// The expression that bytes are.
pub(crate) fn expression_of(alloc: Global, bytes: &[u8]) -> Result<Expr, Failure>
    ensures ok { IfOk result (λ expr. IsRead bytes.now (tree_of expr)) }
    ensures err { IfErr result (IsUnread bytes.now) }
{
    let text = match text_of(bytes) {
        Ok(text) => text,
        Err(failure) => return Err(failure),
    };
    match parse(alloc, text) {
        Ok(expr) => Ok(expr),
        Err(fault) => Err(Failure::Expression(ExpressionFault::Text(fault))),
    }
}

/// The program of an expression, or why there is none.
fn compiled(alloc: Global, text: &[u8], snap: u32) -> Result<Program, Failure>
    ensures { IsCompiled text.now snap result }
{
    let text = match text_of(text) {
        Ok(text) => text,
        Err(failure) => return Err(failure),
    };
    match compile_text(alloc, text, snap) {
        Ok(program) => Ok(program),
        Err(fault) => Err(Failure::Expression(fault)),
    }
}

/// Compiles an expression into the front of the caller's array.
#[unsafe(no_mangle)]
pub extern "C" fn bpftap_compile(
    alloc: Global,
    text: &[u8],
    snap: u32,
    insns: &mut [BpftapInsn],
) -> BpftapResult
    ensures { (made : Result (List Insn) Failure) × IsCompiled text.now snap made
        × Delivers made (insns_of insns.old) (insns_of insns.new) result }
{
    match compiled(alloc, text, snap) {
        Ok(program) => put_insns(program.insns(), insns),
        Err(failure) => failed(failure),
    }
}
