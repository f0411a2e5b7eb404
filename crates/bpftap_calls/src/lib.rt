//! The public functions of `bpftap`: what its commands do, over the sources, sinks and writers of a caller. They stand in a library, since
//! the toolchain lets nobody call a program's crate.
#![tactic(auto)]

ghost use Rattle.std.specs.Prelude.{◌≡◌, ◌≢◌, ◌↔◌, IfErr, IfOk, OnOk, option_copied};
ghost use Rattle.std.specs.Io.KnownBytes.{Appends};
ghost use Rattle.bpfvm.specs.Listing.{listing_of};
ghost use Rattle.cli_cut.specs.Printing.{IsPart, IsUnchecked, IsUnshown, Prints};
ghost use Rattle.cli_cut.specs.declared.print.ProgramForm.TheVariants.{Listing};
ghost use Rattle.cli_filter.specs.Filter.{IsFilter};
ghost use Rattle.cli_run.specs.Running.{RunsTo};
ghost use Rattle.line_text.specs.Sending.{streams};
ghost use Rattle.pcap_cut.specs.Outcome.{Cuts};
ghost use Rattle.bpftap_calls.specs.Calls.{Checks, IsRefusedFilter};

use bpfvm::{Program, write_listing};
use cli_cut::print::PrintFault;
use cli_cut::report::report_print;
pub use cli_cut::report::tell;
use cli_filter::report_filter;
pub use cli_steps::steps::steps;
use fault_report::TextSink;
use filtergen::compile_text;
use line_text::sending::send;
pub use pcap_cut::cut::{CutEnd, End, Tally};
use savefile::{Fault, Header, MAX_SNAP, Order, Sink, Source, Unit};
use std::alloc::Global;
use std::io::Write;
use std::sync::Wait;
use std::thread::Threads;

/// Writes the packets of a capture that a program accepts, each cut, as a capture of its own, in this byte order and unit of time. The
/// snapshot length is at most 262,144 bytes; 0 means that. [`pcap_cut::cut::cut`] says how it ends, and what the sink takes.
pub fn cut<R: Source, W: Sink>(
    alloc: Global,
    from: R,
    program: &Program,
    snap: u32,
    order: Order,
    unit: Unit,
    to: W,
) -> CutEnd<R, W>
    ensures cuts { Cuts R.left W.taken from to program.now snap order unit result }
    ensures source_broke { (result.end ≡ End.Input Fault.Device) ↔ (R.failures result.source ≢ R.failures from) }
    ensures sink_broke { (result.end ≡ End.Output Fault.Device) ↔ (W.failures result.sink ≢ W.failures to) }
    ensures named { W.name result.sink ≡ W.name to }
{
    pcap_cut::cut::cut(alloc, from, program, Header { order, unit, snap }, to)
}

/// The filter of a listing or of an expression, at this snapshot length in bytes, where 0 means 262,144. Without either it is that of the
/// empty expression, which accepts every packet. If there is none, its fault is reported in a line, and the exit status is 1.
pub fn filter<E: Write>(
    alloc: Global,
    listing: Option<&[u8]>,
    expr: Option<&str>,
    snap: u32,
    err: &mut E,
) -> Result<Program, u8>
    ensures found { IfOk result (IsFilter (option_copied listing.entry) (option_copied expr.entry) snap) }
    ensures refused { IfErr result (IsRefusedFilter (option_copied listing.entry) (option_copied expr.entry) snap) }
    ensures silent { IfOk result (λ _. err.new ≡ err.old) }
{
    match cli_filter::filter(alloc, listing, expr, snap) {
        Ok(program) => Ok(program),
        Err(fault) => Err(report_filter(fault, &mut TextSink(err)).code()),
    }
}

/// Sends a text, and hands on what was gathered of it. If that fails, a beginning of the text was taken.
fn print<O: Write>(text: &[u8], out: &mut O) -> Result<(), PrintFault>
    ensures printed { OnOk result (Appends (O.contents out.old) (O.contents out.new) text.now) }
    ensures fault { IfErr result (IsPart (O.contents out.old) (O.contents out.new) text.now) }
{
    match send(text, out) {
        Ok(()) => out.flush().map_err(PrintFault::Output),
        Err(error) => Err(PrintFault::Output(error)),
    }
}

/// Prints the listing of a program.
fn print_listing<O: Write>(alloc: Global, program: &Program, out: &mut O) -> Result<(), PrintFault>
    ensures printed { OnOk result (Appends (O.contents out.old) (O.contents out.new) (listing_of program.now)) }
    ensures fault { IfErr result (IsUnshown (O.contents out.old) (O.contents out.new) Listing program.now) }
{
    match write_listing(alloc, program) {
        Ok(listing) => print(listing.as_slice(), out),
        Err(_) => Err(PrintFault::NoMemory),
    }
}

/// Prints the listing of an expression's program, if it has one.
fn print_program<O: Write>(alloc: Global, expr: &str, out: &mut O) -> Result<(), PrintFault>
    ensures printed { OnOk result (Prints (O.contents out.old) (O.contents out.new) expr.now) }
    ensures fault { IfErr result (IsUnchecked (O.contents out.old) (O.contents out.new) expr.now) }
{
    match compile_text(alloc, expr, MAX_SNAP) {
        Ok(program) => print_listing(alloc, &program, out),
        Err(fault) => Err(PrintFault::Expression(fault)),
    }
}

/// Prints the listing of an expression's program at the largest snapshot length, 262,144 bytes. The exit status is 0; 1 if the expression
/// has no program, or without memory, and nothing is printed; 3 if `out` fails, which then took a beginning of the listing. A fault is
/// reported in a line.
pub fn check<O: Write, E: Write>(alloc: Global, expr: &str, out: &mut O, err: &mut E) -> u8
    ensures { Checks (O.contents out.old) (O.contents out.new) expr.now result }
{
    let printed = print_program(alloc, expr, out);
    report_print(&printed, &mut TextSink(err)).code()
}

/// Replays captures in threads, as [`cli_run::run::run`] says. The runtime has the same allocator.
pub fn run<
    R: Source + Send + Drop,
    W: Sink + Send + Drop,
    M: FnMut(&str) -> W,
    O: Write,
    E: Write,
    T: AllocGlobal + Threads + Wait + Sync,
>(
    rt: &T,
    _alloc: Global,
    listeners: &[u8],
    captures: Vec<Vec<R>>,
    make: M,
    out: &mut O,
    err: &mut E,
) -> (u8, Vec<W>)
    requires { M.IsAlwaysCallable make }
    ensures { RunsTo R.left R.failures W.taken W.failures M.step make listeners.now captures.items
        (streams (O.contents out.old) (E.contents err.old)) (streams (O.contents out.new) (E.contents err.new)) result.0 result.1.items }
{
    cli_run::run::run(rt, listeners, captures, make, out, err)
}
