//! What LISTENERS of `bpftap run` asks for: the listeners, the captures that they write, and the
//! program of each line's expression.

ghost use Rattle.std.specs.Prelude.{◌≡◌, ◌<◌, ℕ, List, All, IfErr, IfNone, IfOk, IfSome, codes, length};
ghost use Rattle.cli_run.specs.Listeners.{AreNumbers, ArePlanned, IsRefusedPlan, IsRunLine, none_shared};

use cli_filter::plan;
use cli_filter::plan::{Plan, PlanFault, PlanFaultText, PlanLine, output_and_expression};
use line_text::fields::{capacity_and_mode, number, snapshot_length, split_once};
use listener::Mode;
use replay_types::{MAX_INTERFACES, MAX_TASKS};
use std::alloc::Global;

/// The most lines that a replay takes: those of all listeners that all interfaces may have.
const MAX_LINES: usize = MAX_INTERFACES * MAX_TASKS;

/// The listener that a line asks for.
#[derive(Clone, Copy, Debug)]
pub struct RunLine<'a> {
    /// The number of its interface, from 0.
    pub interface: usize,
    /// After how many arrivals each the listener is flushed; 0 is never.
    pub flush_every: u32,
    /// How many bytes of a packet are kept at most.
    pub snap: u32,
    /// The bytes of each of the listener's buffers.
    pub capacity: usize,
    pub mode: Mode,
    /// How many buffers go round between the listener and its writer.
    pub spares: usize,
    /// OUT: the path of the capture to write.
    pub output: &'a str,
    /// The filter.
    pub expression: &'a str,
}

/// The first fields of a line, and the rest.
#[derive(Clone, Copy)]
struct Fields<'a> {
    interface: &'a [u8],
    flush_every: &'a [u8],
    snap: &'a [u8],
    capacity: &'a [u8],
    spares: &'a [u8],
    rest: &'a [u8],
}

/// Cuts a line at its first five spaces.
fn fields_of(line: &[u8]) -> Option<Fields<'_>>
    ensures some { IfSome result (λ f. AreNumbers line.now f.interface.now f.flush_every.now f.snap.now f.capacity.now f.spares.now f.rest.now) }
    ensures none { IfNone result ((interface flush_every snap capacity spares rest : List ℕ) →
        AreNumbers line.now interface flush_every snap capacity spares rest → ⊥) }
{
    let (interface, rest) = split_once(line, b' ')?;
    let (flush_every, rest) = split_once(rest, b' ')?;
    let (snap, rest) = split_once(rest, b' ')?;
    let (capacity, rest) = split_once(rest, b' ')?;
    let (spares, rest) = split_once(rest, b' ')?;
    Some(Fields {
        interface,
        flush_every,
        snap,
        capacity,
        spares,
        rest,
    })
}

impl<'a> PlanLine<'a> for RunLine<'a> {
    /// How many interfaces there are.
    type Terms = usize;

    ghost says = { λ interfaces line asked. IsRunLine interfaces line asked };

    ghost output_of = { λ asked. asked.output.now };

    ghost expression_of = { λ asked. asked.expression.now };

    ghost snap_of = { λ asked. asked.snap };

    ghost shared = { none_shared };

    /// `INTERFACE FLUSH SNAP CAPACITY SPARES OUT EXPRESSION`. The first five are decimal: INTERFACE
    /// is one of those that there are, FLUSH has at most 32 bits, SNAP is at most 262,144, CAPACITY
    /// and SPARES have at most 64 bits. CAPACITY may have an `i` after its digits, for the mode
    /// Immediate.
    fn read(line: &'a [u8], interfaces: usize) -> Option<RunLine<'a>> {
        let fields = fields_of(line)?;
        let interface = number(fields.interface, u64::MAX)? as usize;
        if interface >= interfaces {
            return None;
        }
        let flush_every = number(fields.flush_every, u64::from(u32::MAX))? as u32;
        let snap = snapshot_length(fields.snap)?;
        let (capacity, mode) = capacity_and_mode(fields.capacity)?;
        let spares = number(fields.spares, u64::MAX)? as usize;
        let (output, expression) = output_and_expression(fields.rest)?;
        Some(RunLine {
            interface,
            flush_every,
            snap,
            capacity,
            mode,
            spares,
            output,
            expression,
        })
    }

    fn output(&self) -> &'a str {
        self.output
    }

    fn expression(&self) -> &'a str {
        self.expression
    }

    fn snap(&self) -> u32 {
        self.snap
    }

    /// Each listener writes a capture of its own.
    fn is_shared(_output: &str) -> bool
        ensures { result ≡ none_shared _output.now }
    {
        false
    }
}

/// The fault of LISTENERS, as it is printed.
pub fn fault_text(fault: PlanFault) -> PlanFaultText
    ensures file { result.file.now ≡ codes "Listeners" }
    ensures fault { result.fault ≡ fault }
{
    PlanFaultText {
        file: "Listeners",
        fault,
    }
}

/// Reads LISTENERS, a listener on each line: `INTERFACE FLUSH SNAP CAPACITY SPARES OUT EXPRESSION`;
/// and compiles the expressions, each for its snapshot length.
///
/// INTERFACE is below `interfaces`; FLUSH, SNAP, CAPACITY and SPARES are decimal, of at most 32
/// bits, 262,144, 64 bits and 64 bits. CAPACITY may have an `i` after its digits, for the mode
/// Immediate. OUT has a byte at least and no space, and no other line has it. EXPRESSION is the
/// rest of the line; if it is empty, the space before it may be missing. Both are UTF-8.
///
/// The plan has at most 1,025 lines: one more than a replay takes, so that its caller sees that
/// there are too many. Later lines are read and compiled all the same. [`PlanFault::Line`] names
/// the first line, from 1, that lacks this form; else [`PlanFault::Expression`] the first line, from
/// 0, whose expression has no program. [`PlanFault::NoMemory`] says that memory ran out.
pub fn read_plan(
    alloc: Global,
    listeners: &[u8],
    interfaces: usize,
) -> Result<Plan<RunLine<'_>>, PlanFault>
    ensures planned { IfOk result (λ plan. ArePlanned interfaces listeners.now plan.lines.items plan.programs.items) }
    ensures fault { IfErr result (λ fault. IsRefusedPlan interfaces listeners.now fault) }
    // What a replay of the plan requires.
    ensures there { IfOk result (λ plan. All (λ line. line.interface < interfaces) plan.lines.items) }
    ensures all { IfOk result (λ plan. length plan.programs.items ≡ length plan.lines.items) }
{
    plan::read_plan(alloc, listeners, interfaces, MAX_LINES + 1)
}
