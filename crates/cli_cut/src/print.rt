//! Prints what a filter expression says: the functions under `bpftap check`.

ghost use Rattle.std.specs.Prelude.{◌≡◌, ◌++◌, false, IfOk, OnOk, IfErr, string_bytes};
ghost use Rattle.std.specs.Io.KnownBytes.{Appends};
ghost use Rattle.filterlang.specs.Trees.{tree_of};
ghost use Rattle.line_text.specs.Texts.{end_of_line};
ghost use Rattle.filter_print.specs.Canonical.{canonical};
ghost use Rattle.cli_cut.specs.Printing.{Prints, PrintsRead, IsPart, IsUnchecked, IsUnprinted, IsUnread, IsUnshown, begins_with_minus, given_back, program_text};

use bpf_asm::write_array;
use bpfvm::{NoMemory, Program, write_image, write_listing};
use cli_watch::output::{PrintSink, send_last};
use filter_print::Canonical;
use filtergen::{ExpressionFault, compile_text};
use filterlang::{Expr, parse};
use savefile::MAX_SNAP;
use std::alloc::Global;
use std::io;
use thiserror::Error;

/// Why a program is not printed.
#[derive(Debug, Drop, Error)]
pub enum PrintFault {
    /// The expression has no program, and nothing is printed.
    #[error("{0}")]
    Expression(ExpressionFault),
    /// Memory for the text ran out, and nothing is printed.
    #[error("NoMemory")]
    NoMemory,
    /// The writer failed, and a prefix of the text was printed.
    #[error("{0}")]
    Output(io::Error),
}

/// Prints the listing of an expression's program at the largest snapshot length, 262,144.
///
/// The fault is the one that applies: [`PrintFault::Expression`] of a text which is no expression,
/// or is too deep or too long to compile, or, with `NoMemory`, if memory for that ran out. If there
/// is a program: [`PrintFault::NoMemory`] if memory for its listing was refused, and
/// [`PrintFault::Output`] if `out` fails, which then took a prefix of the listing and no more.
pub fn check<O: PrintSink>(alloc: Global, expr: &str, out: &mut O) -> Result<(), PrintFault>
    ensures printed { OnOk result (Prints (O.contents out.old) (O.contents out.new) expr.now) }
    ensures fault { IfErr result (IsUnchecked (O.contents out.old) (O.contents out.new) expr.now) }
    ensures handed_on { OnOk result (O.waits out.new ≡ false) }
{
    match compile_text(alloc, expr, MAX_SNAP) {
        Ok(program) => show(alloc, &program, ProgramForm::Listing, out),
        Err(fault) => Err(PrintFault::Expression(fault)),
    }
}

/// How a program is printed.
#[derive(Clone, Copy, Debug, PartialEq, Eq)]
pub enum ProgramForm {
    /// As numbers, for a program to read: what `tcpdump -ddd` prints.
    Listing,
    /// By the names of its instructions, for a person: what `tcpdump -d` prints.
    Image,
    /// As an array of C: what `tcpdump -dd` prints.
    Array,
}

fn text_of(alloc: Global, program: &Program, form: ProgramForm) -> Result<Vec<u8>, NoMemory>
    ensures { IfOk result (λ text. text.items ≡ program_text form program.now) }
{
    match form {
        ProgramForm::Listing => write_listing(alloc, program),
        ProgramForm::Image => write_image(alloc, program),
        ProgramForm::Array => write_array(alloc, program),
    }
}

/// Prints a text. The fault is [`PrintFault::Output`], and then a prefix of it was printed.
pub(crate) fn print<O: PrintSink>(text: &[u8], out: &mut O) -> Result<(), PrintFault>
    ensures printed { OnOk result (Appends (O.contents out.old) (O.contents out.new) text.now) }
    ensures fault { IfErr result (IsPart (O.contents out.old) (O.contents out.new) text.now) }
    ensures handed_on { OnOk result (O.waits out.new ≡ false) }
{
    match send_last(text, out) {
        Ok(()) => Ok(()),
        Err(error) => Err(PrintFault::Output(error)),
    }
}

/// Prints a program in one of its forms. The fault is [`PrintFault::NoMemory`], and then nothing
/// was printed, or [`PrintFault::Output`]: `out` failed, and took a prefix of the text and no more.
pub fn show<O: PrintSink>(
    alloc: Global,
    program: &Program,
    form: ProgramForm,
    out: &mut O,
) -> Result<(), PrintFault>
    ensures printed { OnOk result (Appends (O.contents out.old) (O.contents out.new) (program_text form program.now)) }
    ensures fault { IfErr result (IsUnshown (O.contents out.old) (O.contents out.new) form program.now) }
    ensures handed_on { OnOk result (O.waits out.new ≡ false) }
{
    match text_of(alloc, program, form) {
        Ok(text) => print(text.as_slice(), out),
        Err(_) => Err(PrintFault::NoMemory),
    }
}

/// Whether a text begins with `-`, so that a command line takes it for options.
fn begins_with_minus(text: &[u8]) -> bool
    ensures { result ≡ begins_with_minus text.now }
{
    match text.first() {
        Some(first) => *first == b'-',
        None => false,
    }
}

/// An expression as it was read, as it is given back on a command line.
pub(crate) fn read_text(alloc: Global, expr: &Expr) -> Result<String, NoMemory>
    ensures { IfOk result (λ text. string_bytes text ≡ given_back (canonical (tree_of expr.now))) }
{
    let text = Canonical(expr).to_string(alloc)?;
    if !begins_with_minus(text.as_bytes()) {
        return Ok(text);
    }
    let mut given_back = String::new(alloc);
    write!(given_back, "({text})")?;
    Ok(given_back)
}

/// The line of an expression as it was read.
fn read_line(alloc: Global, expr: &Expr) -> Result<String, NoMemory>
    ensures { IfOk result (λ line. string_bytes line ≡ given_back (canonical (tree_of expr.now)) ++ end_of_line) }
{
    let mut line = read_text(alloc, expr)?;
    line.push_str("\n")?;
    Ok(line)
}

/// Prints an expression on a line.
fn print_read<O: PrintSink>(alloc: Global, expr: &Expr, out: &mut O) -> Result<(), PrintFault>
    ensures printed { OnOk result (Appends (O.contents out.old) (O.contents out.new) (given_back (canonical (tree_of expr.now)) ++ end_of_line)) }
    ensures fault { IfErr result (IsUnprinted (O.contents out.old) (O.contents out.new) (given_back (canonical (tree_of expr.now)) ++ end_of_line)) }
    ensures handed_on { OnOk result (O.waits out.new ≡ false) }
{
    match read_line(alloc, expr) {
        Ok(line) => print(line.as_bytes(), out),
        Err(_) => Err(PrintFault::NoMemory),
    }
}

/// Prints an expression as it was read, on one line: its canonical text, in which all that was
/// inherited is written out. One that begins with `-` is printed in parentheses, so that it can be
/// given back on a command line. It need not compile.
///
/// The fault is that of a text which is no expression; or [`PrintFault::NoMemory`], and then
/// nothing was printed; or [`PrintFault::Output`]: `out` failed, and took a prefix of the line and
/// no more.
pub fn show_read<O: PrintSink>(alloc: Global, expr: &str, out: &mut O) -> Result<(), PrintFault>
    ensures printed { OnOk result (PrintsRead (O.contents out.old) (O.contents out.new) expr.now) }
    ensures fault { IfErr result (IsUnread (O.contents out.old) (O.contents out.new) expr.now) }
    ensures handed_on { OnOk result (O.waits out.new ≡ false) }
{
    match parse(alloc, expr) {
        Ok(expr) => print_read(alloc, &expr, out),
        Err(fault) => Err(PrintFault::Expression(ExpressionFault::Text(fault))),
    }
}
