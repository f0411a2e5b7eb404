//! The plan of a file of lines, each of which names a capture to write, by its OUT, and a filter.

ghost use Rattle.std.specs.Prelude.{◌≡◌, ◌||◌, ℕ, Bool, List, IfErr, IfNone, IfOk, IfSome, Some, length};
ghost use Rattle.std.specs.List.{AllZip};
ghost use Rattle.cli_filter.specs.Plan.{AreCut, AreLines, AreNoLines, AreLastFields, AreFirstPrograms, ArePlanned, AreUncompiled, IsCompiled, IsRefusedPlan, lacks_memory, plan_fault_text, uncompiled_text};
ghost use Rattle.cli_filter.specs.Reports.{IsPlanReport, IsUncompiledReport};
ghost use Rattle.line_text.specs.Fields.{IsWord};
ghost use Rattle.cli_filter.specs.declared.plan.PlanFault.TheVariants.{NoMemory};

use crate::report::expression_report;
use bpfvm::Program;
use fault_report::{Report, Word};
use filtergen::{ExpressionFault, compile_text};
use filtergen_facts::Refusal;
use line_text::fields::{first_line, split_once};
use std::alloc::{AllocError, AllocFailed, Global};
use std::collections::BTreeSet;
use std::fmt::{Display, Formatter};
use std::{fmt, str};

/// A line of a plan.
pub trait PlanLine<'a>: Copy + Drop {
    /// What the form of a line depends on.
    type Terms: Copy + Drop;

    /// Whether the bytes of a line say this.
    ghost says: { Self.Terms → List ℕ → Self → Type 0 };

    ghost output_of: { Self → List ℕ };

    ghost expression_of: { Self → List ℕ };

    ghost snap_of: { Self → ℕ };

    /// Whether several lines may have this OUT.
    ghost shared: { List ℕ → Bool };

    /// What a line says; `None` if it lacks the form.
    fn read(line: &'a [u8], terms: Self::Terms) -> Option<Self>
        ensures some { IfSome result (λ asked. says terms line.now asked) }
        ensures one_output { IfSome result (λ asked. (other : Self) → says terms line.now other → output_of other ≡ output_of asked) }
        ensures none { IfNone result ((asked : Self) → says terms line.now asked → ⊥) };

    /// The path of the capture to write.
    fn output(&self) -> &'a str
        ensures { result.now ≡ output_of self.now };

    /// The filter.
    fn expression(&self) -> &'a str
        ensures { result.now ≡ expression_of self.now };

    /// How many bytes of a packet are kept at most.
    fn snap(&self) -> u32
        ensures { result ≡ snap_of self.now };

    /// Whether several lines may have this OUT.
    fn is_shared(output: &str) -> bool
        ensures { result ≡ shared output.now };
}

/// Why a file of lines is refused.
#[derive(Clone, Copy, Debug, PartialEq, Eq)]
pub enum PlanFault {
    /// This line, from 1, lacks the form, or has the OUT of an earlier line which several may not
    /// have.
    Line(usize),
    /// The expression of this line, from 0, has no program.
    Expression(usize, ExpressionFault),
    /// There are more lines than the command takes.
    TooMany,
    NoMemory,
}

impl From<AllocError> for PlanFault {
    ghost from_gives = { λ _ e. e ≡ NoMemory };

    fn from(_e: AllocError) -> PlanFault {
        PlanFault::NoMemory
    }
}

impl<T: Drop> From<AllocFailed<T>> for PlanFault {
    ghost from_gives = { λ _ e. e ≡ NoMemory };

    fn from(_e: AllocFailed<T>) -> PlanFault {
        PlanFault::NoMemory
    }
}

/// A fault as it is printed. The fault of a line is named after its file: `Lines 3`.
#[derive(Clone, Copy)]
pub struct PlanFaultText {
    pub file: &'static str,
    pub fault: PlanFault,
}

/// Whether it is memory that lacks, which is no fault of the expression.
fn lacks_memory(fault: ExpressionFault) -> bool
    ensures { result ≡ lacks_memory fault }
{
    matches!(
        fault,
        ExpressionFault::Text(filterlang::Fault::NoMemory)
            | ExpressionFault::Tree(Refusal::NoMemory)
    )
}

/// Why the expression of this line, from 0, has no program, as it is printed.
#[derive(Clone, Copy)]
struct UncompiledText(usize, ExpressionFault);

impl Display for UncompiledText {
    ghost output = { λ text. Some (uncompiled_text text.0 text.1) };

    fn fmt<W: fmt::Write>(&self, f: &mut Formatter<W>) -> fmt::Result {
        let n = self.0;
        if lacks_memory(self.1) {
            return f.write_str("NoMemory");
        }
        match self.1 {
            ExpressionFault::Text(fault) => write!(f, "Expression {n} {fault}"),
            ExpressionFault::Tree(refusal) => write!(f, "Compile {n} {refusal}"),
        }
    }
}

impl Display for PlanFaultText {
    ghost output = { λ text. Some (plan_fault_text text.file.now text.fault) };

    fn fmt<W: fmt::Write>(&self, f: &mut Formatter<W>) -> fmt::Result {
        match self.fault {
            PlanFault::Line(line) => write!(f, "{} {line}", self.file),
            PlanFault::Expression(n, fault) => write!(f, "{}", UncompiledText(n, fault)),
            PlanFault::TooMany => f.write_str("TooMany"),
            PlanFault::NoMemory => f.write_str("NoMemory"),
        }
    }
}

impl PlanFaultText {
    /// The same fault as a value.
    pub fn report(self) -> Report<'static>
        ensures { IsPlanReport self.file.now self.fault result }
    {
        match self.fault {
            PlanFault::Line(line) => Report::placed(self.file, Word::count(line)),
            PlanFault::Expression(n, fault) => uncompiled_report(n, fault),
            PlanFault::TooMany => Report::named("TooMany"),
            PlanFault::NoMemory => Report::named("NoMemory"),
        }
    }
}

/// Why the expression of this line, from 0, has no program.
fn uncompiled_report(n: usize, fault: ExpressionFault) -> Report<'static>
    ensures { IsUncompiledReport n fault result }
{
    if lacks_memory(fault) {
        return expression_report(fault);
    }
    let name = match fault {
        ExpressionFault::Text(_) => "Expression",
        ExpressionFault::Tree(_) => "Compile",
    };
    Report::of_part(name, n, fault.name(), Word::place(fault.place()))
}

/// What a file of lines asks for.
#[derive(Drop)]
pub struct Plan<L> {
    pub lines: Vec<L>,
    /// The filter of each line.
    pub programs: Vec<Program>,
}

/// Cuts the end of a line into OUT and EXPRESSION.
fn cut_rest(rest: &[u8]) -> (&[u8], &[u8])
    ensures cut { AreCut rest.now result.0.now result.1.now }
    ensures word { IsWord result.0.now }
{
    match split_once(rest, b' ') {
        Some(parts) => parts,
        None => (rest, b"".as_slice()),
    }
}

/// The fields at the end of a line, OUT and EXPRESSION; `None` if OUT is empty or one of the two is
/// not UTF-8. The space before an empty EXPRESSION may be missing.
pub fn output_and_expression(rest: &[u8]) -> Option<(&str, &str)>
    ensures some { IfSome result (λ fields. AreLastFields rest.now fields.0.now fields.1.now) }
    ensures none { IfNone result ((output expression : List ℕ) → AreLastFields rest.now output expression → ⊥) }
{
    let (output, expression) = cut_rest(rest);
    if output.is_empty() {
        return None;
    }
    let Ok(output) = str::from_utf8(output) else {
        return None;
    };
    let Ok(expression) = str::from_utf8(expression) else {
        return None;
    };
    Some((output, expression))
}

/// Whether a further line may have an OUT: no earlier one has it, or several may.
fn may_stand<'a, L: PlanLine<'a>>(output: &str, is_new: bool) -> bool
    ensures { result ≡ (is_new || L.shared output.now) }
{
    is_new || L::is_shared(output)
}

/// Reads the lines of a text, and keeps the first of them, `most` at most.
///
/// [`PlanFault::Line`] names the first line, from 1, that lacks the form or has the OUT of an
/// earlier line, kept or not, if several may not have it. [`PlanFault::NoMemory`] says that memory
/// ran out.
pub fn read_lines<'a, L: PlanLine<'a>>(
    alloc: Global,
    text: &'a [u8],
    terms: L::Terms,
    most: usize,
) -> Result<Vec<L>, PlanFault>
    ensures ok { IfOk result (λ lines. AreLines (L.says terms) L.output_of L.shared most text.now lines.items) }
    ensures fault { IfErr result (λ fault. AreNoLines (L.says terms) L.output_of L.shared text.now fault) }
{
    let mut lines = Vec::new(alloc);
    let mut outputs = BTreeSet::new(alloc);
    let mut number = 0;
    let mut rest = text;
    while !rest.is_empty() {
        let (line, after) = first_line(rest);
        number += 1;
        let Some(asked) = L::read(line, terms) else {
            return Err(PlanFault::Line(number));
        };
        let path = asked.output();
        let is_new = outputs.insert(path)?;
        if !may_stand::<L>(path, is_new) {
            return Err(PlanFault::Line(number));
        }
        if lines.len() < most {
            lines.push(asked)?;
        }
        rest = after;
    }
    Ok(lines)
}

/// Compiles the expression of each line, for its snapshot length, and keeps the first programs,
/// `most` at most.
///
/// [`PlanFault::Expression`] names the first line, from 0, whose expression has no program.
/// [`PlanFault::NoMemory`] says that memory ran out.
fn compile_first<'a, L: PlanLine<'a>>(
    alloc: Global,
    lines: &[L],
    most: usize,
) -> Result<Vec<Program>, PlanFault>
    ensures programs { IfOk result (λ programs. AreFirstPrograms L.expression_of L.snap_of most lines.now programs.items) }
    ensures fault { IfErr result (λ fault. AreUncompiled L.expression_of L.snap_of lines.now fault) }
{
    let mut programs = Vec::with_capacity(alloc, lines.len().min(most))?;
    for (n, line) in lines.iter().enumerate() {
        let program = match compile_text(alloc, line.expression(), line.snap()) {
            Ok(program) => program,
            Err(fault) => return Err(PlanFault::Expression(n, fault)),
        };
        if programs.len() < most {
            programs.push(program)?;
        }
    }
    Ok(programs)
}

/// The program of each line, for its snapshot length; or the fault of the first expression that has
/// none.
pub fn compile_lines<'a, L: PlanLine<'a>>(
    alloc: Global,
    lines: &[L],
) -> Result<Vec<Program>, PlanFault>
    ensures programs { IfOk result (λ programs. AllZip (IsCompiled L.expression_of L.snap_of) lines.now programs.items) }
    ensures fault { IfErr result (λ fault. AreUncompiled L.expression_of L.snap_of lines.now fault) }
{
    compile_first(alloc, lines, lines.len())
}

/// Reads the lines of a text as [`read_lines`] does and compiles all expressions, then keeps the
/// first lines and their programs, `most` at most.
///
/// A line's fault comes before any expression's. [`PlanFault::Expression`] names the first line,
/// kept or not, from 0, whose expression has no program. [`PlanFault::NoMemory`] says that memory
/// ran out.
pub fn read_plan<'a, L: PlanLine<'a>>(
    alloc: Global,
    text: &'a [u8],
    terms: L::Terms,
    most: usize,
) -> Result<Plan<L>, PlanFault>
    ensures planned { IfOk result (λ plan. ArePlanned (L.says terms) L.output_of L.shared L.expression_of L.snap_of most text.now plan.lines.items plan.programs.items) }
    ensures fault { IfErr result (λ fault. IsRefusedPlan (L.says terms) L.output_of L.shared L.expression_of L.snap_of text.now fault) }
    // What follows of `planned`, for callers that pair them.
    ensures all { IfOk result (λ plan. length plan.programs.items ≡ length plan.lines.items) }
{
    // All lines: they are at most one more than the line feeds.
    let mut lines = read_lines(alloc, text, terms, text.len() + 1)?;
    let programs = compile_first(alloc, lines.as_slice(), most)?;
    lines.truncate(most);
    Ok(Plan { lines, programs })
}
