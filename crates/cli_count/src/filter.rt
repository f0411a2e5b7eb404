//! A filter whose answers are counted.

ghost use Rattle.std.specs.Prelude.{◌≡◌, IfOk, option_copied};
ghost use Rattle.cli_answers.specs.declared.filter.AskedFilter.TheVariants.{Expression};
ghost use Rattle.cli_count.specs.Counting.{measured};
ghost use Rattle.cli_count.specs.Filter.{program_accepts, Answers, IsVerdictByTwo, StandsFor, passes};

use bpfvm::{Program, run};
use cli_answers::AskedFilter;
use cli_answers::run_end::{end_of_run, ended_as};
use cli_answers::seek::PacketTest;
use filter_meaning::{Verdict, evaluate};
use filter_tree::Expr;
use filtergen::compile;
use savefile::PacketRef;
use std::alloc::{AllocError, Global};

/// The snapshot length of the programs, whose answers are only compared with 0.
const SNAP: u32 = 1;

/// A filter whose answers are counted.
#[derive(Drop)]
pub enum CountedFilter {
    /// The two programs of an expression: the first accepts what the expression answers Yes to, the
    /// second what it answers No to.
    Programs(Program, Program),
    /// A filter that is asked itself: a program, or an expression without one.
    Asked(AskedFilter),
}

/// Whether a program accepts a packet.
fn program_accepts(program: &Program, packet: &PacketRef<'_>) -> bool
    ensures { result ≡ program_accepts program.now packet.now }
{
    run(program, packet.bytes, packet.len) > 0
}

/// What two programs answer, of which the first accepts what is answered Yes, and the second what
/// is answered No. The one that `likely` names is asked first.
fn judge_by_two(
    accepting: &Program,
    rejecting: &Program,
    packet: &PacketRef<'_>,
    likely: Verdict,
) -> Verdict
    ensures { IsVerdictByTwo accepting.now rejecting.now packet.now result }
{
    if likely == Verdict::Yes && program_accepts(accepting, packet) {
        Verdict::Yes
    } else if program_accepts(rejecting, packet) {
        Verdict::No
    } else if program_accepts(accepting, packet) {
        Verdict::Yes
    } else {
        Verdict::Abort
    }
}

/// The filter of an expression. If the expression and its negation have programs, these answer in
/// its place: only both together distinguish No from Abort.
fn of_expression(alloc: Global, expr: Expr) -> Result<CountedFilter, AllocError>
    ensures { IfOk result (StandsFor (Expression expr)) }
{
    let Ok(accepting) = compile(&expr, SNAP) else {
        return Ok(CountedFilter::Asked(AskedFilter::Expression(expr)));
    };
    let negation = Expr::Not(Box::new(alloc, expr)?);
    match compile(&negation, SNAP) {
        Ok(rejecting) => Ok(CountedFilter::Programs(accepting, rejecting)),
        // The negation of a negation answers as the expression.
        Err(_) => Ok(CountedFilter::Asked(AskedFilter::Expression(Expr::Not(Box::new(
            alloc, negation,
        )?)))),
    }
}

impl CountedFilter {
    /// The filter that answers every packet as this one does. It is faster for an expression that
    /// has a program.
    pub fn of(alloc: Global, filter: AskedFilter) -> Result<CountedFilter, AllocError>
        ensures { IfOk result (StandsFor filter) }
    {
        match filter {
            AskedFilter::Expression(expr) => of_expression(alloc, expr),
            AskedFilter::Program(program) => {
                Ok(CountedFilter::Asked(AskedFilter::Program(program)))
            }
        }
    }

    /// The program whose instructions are counted, if that is asked for: that of an expression, or
    /// the program that the filter is.
    pub(crate) fn measured_program(&self, is_measured: bool) -> Option<&Program>
        ensures { option_copied result ≡ measured is_measured self.now }
    {
        if !is_measured {
            return None;
        }
        match self {
            CountedFilter::Programs(accepting, _) => Some(accepting),
            CountedFilter::Asked(AskedFilter::Program(program)) => Some(program),
            CountedFilter::Asked(AskedFilter::Expression(_)) => None,
        }
    }

    /// What the filter answers to a packet: an expression by its meaning, a program by the end of
    /// its run. `likely` is what it may answer; the call is faster if it does.
    pub fn judge(&self, packet: &PacketRef<'_>, likely: Verdict) -> Verdict
        ensures { Answers self.now packet.now result }
    {
        match self {
            CountedFilter::Programs(accepting, rejecting) => {
                judge_by_two(accepting, rejecting, packet, likely)
            }
            CountedFilter::Asked(AskedFilter::Expression(expr)) => {
                evaluate(expr, packet.bytes, packet.len)
            }
            CountedFilter::Asked(AskedFilter::Program(program)) => {
                let end = end_of_run(program, packet);
                ended_as(&end.insn, end.number)
            }
        }
    }
}

/// A packet passes if the filter accepts it.
impl PacketTest for CountedFilter {
    ghost passed = { λ filter p. passes filter p };

    fn passes(&self, packet: &PacketRef<'_>) -> bool {
        match self {
            CountedFilter::Programs(accepting, _) => program_accepts(accepting, packet),
            CountedFilter::Asked(filter) => filter.passes(packet),
        }
    }
}
