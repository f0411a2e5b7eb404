//! A program as an object of JSON: the functions under `bpftap check --json`.

ghost use Rattle.std.specs.Prelude.{◌≡◌, ◌<◌, ◌^◌, ◌++◌, codes, false, IfErr, IfOk, OnOk, option_map, string_bytes};
ghost use Rattle.std.specs.Io.KnownBytes.{Appends};
ghost use Rattle.filterlang.specs.Trees.{tree_of};
ghost use Rattle.line_text.specs.Texts.{numbered};
ghost use Rattle.cli_cut.specs.Printing.{IsUnprinted};
ghost use Rattle.cli_cut.specs.Objects.{PrintsObject, IsObjectUnprinted, element_json, expression_json, insn_json, named, program_json};

use crate::print::{PrintFault, print, read_text};
use bpfvm::{Brief, Insn, NoMemory, Program, code};
use cli_watch::output::PrintSink;
use filtergen::{ExpressionFault, compile_text};
use filterlang::{Expr, parse};
use line_text::put_string;
use std::alloc::{AllocError, Global};

/// Appends the name and the operand of an instruction. A jump has the place that it leads to.
fn put_name(name: &mut String, place: usize, insn: &Insn) -> Result<(), AllocError>
    requires { place < 2 ^ 63 }
    ensures { OnOk result (string_bytes name.new ≡ string_bytes name.old ++ named place insn.now) }
{
    if insn.code == code::JA {
        write!(name, "ja {}", place as u64 + 1 + u64::from(insn.k))
    } else {
        write!(name, "{}", Brief(insn))
    }
}

/// Appends an instruction.
#[tactic(auto, unfolding(crate::specs::Objects::insn_json))]
fn put_insn(
    text: &mut String,
    name: &mut String,
    place: usize,
    insn: &Insn,
) -> Result<(), AllocError>
    requires { place < 2 ^ 63 }
    ensures { OnOk result (string_bytes text.new ≡ string_bytes text.old ++ insn_json place insn.now) }
{
    let Insn { code, jt, jf, k } = *insn;
    name.clear();
    put_name(name, place, insn)?;
    write!(text, "{{\"place\":{place},\"code\":{code},\"jt\":{jt}")?;
    write!(text, ",\"jf\":{jf},\"k\":{k},\"name\":")?;
    put_string(text, name.as_str())?;
    text.push_str("}")
}

/// Appends an instruction, after a comma if it is not the first.
fn put_element(
    text: &mut String,
    name: &mut String,
    place: usize,
    insn: &Insn,
) -> Result<(), AllocError>
    requires { place < 2 ^ 63 }
    ensures { OnOk result (string_bytes text.new ≡ string_bytes text.old ++ element_json place insn.now) }
{
    if place > 0 {
        text.push_str(",")?;
    }
    put_insn(text, name, place, insn)
}

/// Appends the instructions of a program.
fn put_insns(text: &mut String, name: &mut String, insns: &[Insn]) -> Result<(), AllocError>
    ensures { OnOk result (string_bytes text.new ≡ string_bytes text.old ++ numbered element_json 0 insns.now) }
{
    for place in 0..insns.len() {
        put_element(text, name, place, &insns[place])?;
    }
    Ok(())
}

/// Appends an expression as it was read, as it is given back on a command line, if there is one.
fn put_expression(alloc: Global, text: &mut String, expr: Option<&Expr>) -> Result<(), NoMemory>
    ensures { OnOk result (string_bytes text.new ≡ string_bytes text.old ++ expression_json (option_map (λ e. tree_of e.now) expr.entry)) }
{
    match expr {
        Some(expr) => put_string(text, read_text(alloc, expr)?.as_str())?,
        None => text.push_str("null")?,
    }
    Ok(())
}

/// The object of a program, and of the expression that it is of.
#[tactic(auto, unfolding(crate::specs::Objects::program_json))]
fn object_of(alloc: Global, expr: Option<&Expr>, program: &Program) -> Result<String, NoMemory>
    ensures { IfOk result (λ text. string_bytes text ≡ program_json (option_map (λ e. tree_of e.now) expr.entry) program.now) }
{
    let (mut text, mut name) = (String::new(alloc), String::new(alloc));
    text.push_str("{\"expression\":")?;
    put_expression(alloc, &mut text, expr)?;
    text.push_str(",\"instructions\":[")?;
    put_insns(&mut text, &mut name, program.insns())?;
    text.push_str("]}\n")?;
    Ok(text)
}

/// Prints a program as an object of JSON on a line, with the expression that it is of as it was
/// read, or `null`:
/// `{"expression":"ip","instructions":[{"place":0,"code":40,"jt":0,"jf":0,"k":12,"name":"ldh
/// [12]"},..]}`. Places count from 0, and `name` has no places of conditional jumps. An expression
/// that begins with `-` is in parentheses.
///
/// The fault is [`PrintFault::NoMemory`], and then nothing was printed, or [`PrintFault::Output`]:
/// `out` failed, and took a prefix of the object and no more.
pub fn show_object<O: PrintSink>(
    alloc: Global,
    expr: Option<&Expr>,
    program: &Program,
    out: &mut O,
) -> Result<(), PrintFault>
    ensures printed { OnOk result (Appends (O.contents out.old) (O.contents out.new) (program_json (option_map (λ e. tree_of e.now) expr.entry) program.now)) }
    ensures fault { IfErr result (IsUnprinted (O.contents out.old) (O.contents out.new) (program_json (option_map (λ e. tree_of e.now) expr.entry) program.now)) }
    ensures handed_on { OnOk result (O.waits out.new ≡ false) }
{
    match object_of(alloc, expr, program) {
        Ok(text) => print(text.as_bytes(), out),
        Err(_) => Err(PrintFault::NoMemory),
    }
}

/// Prints an expression as it was read, and its program with a snapshot length of 1 to 262,144, as
/// [`show_object`] does.
///
/// The fault is [`PrintFault::Expression`] of a text which is no expression, or is too deep or too
/// long to compile, or of a snapshot length that is out of range, or, with `NoMemory`, if memory
/// for that ran out; else one of [`show_object`].
pub fn check_object<O: PrintSink>(
    alloc: Global,
    expr: &str,
    snap: u32,
    out: &mut O,
) -> Result<(), PrintFault>
    ensures printed { OnOk result (PrintsObject (O.contents out.old) (O.contents out.new) expr.now snap) }
    ensures fault { IfErr result (IsObjectUnprinted (O.contents out.old) (O.contents out.new) expr.now snap) }
    ensures handed_on { OnOk result (O.waits out.new ≡ false) }
{
    let program = match compile_text(alloc, expr, snap) {
        Ok(program) => program,
        Err(fault) => return Err(PrintFault::Expression(fault)),
    };
    match parse(alloc, expr) {
        Ok(tree) => show_object(alloc, Some(&tree), &program, out),
        Err(fault) => Err(PrintFault::Expression(ExpressionFault::Text(fault))),
    }
}
