//! The listeners of lines, laid out by interface, and their sinks, handed back in the order of the
//! lines.

ghost use Rattle.std.specs.Prelude.{◌≡◌, ◌<◌, ◌≤◌, All, IfOk, length, vec_capacity, vec_len};
ghost use Rattle.std.specs.List.{AllZip};
ghost use Rattle.cli_run.specs.Bare.{HaveTheirListeners, IsBare};
ghost use Rattle.cli_run.specs.Layout.{AreLaidOut, AreSinksOf, places_of, task_of, tasks_of};

use crate::plan::RunLine;
use bpfvm::Program;
use replay_types::{Interface, InterfaceReport, ListenerReport, Task};
use savefile::{Order, Unit};
use std::alloc::{AllocError, Global};

/// An interface for each list of captures, without listeners so far.
fn bare_interfaces<R: Drop, W: Drop>(
    alloc: Global,
    captures: Vec<Vec<R>>,
) -> Result<Vec<Interface<R, W>>, AllocError>
    ensures { IfOk result (λ interfaces. AllZip IsBare captures.items interfaces.items) }
{
    let mut interfaces = Vec::with_capacity(alloc, captures.len())?;
    for captures in captures {
        let tasks = Vec::new(alloc);
        interfaces.push(Interface { captures, tasks })?;
    }
    Ok(interfaces)
}

fn task_of<W>(line: &RunLine<'_>, program: Program, sink: W) -> Task<W>
    ensures { result ≡ task_of line.now program sink }
{
    Task {
        program,
        snap: line.snap,
        capacity: line.capacity,
        mode: line.mode,
        flush_every: line.flush_every,
        spares: line.spares,
        order: Order::Little,
        unit: Unit::Micro,
        sink,
    }
}

/// The interfaces, one for each list of captures, each with the tasks of the lines that name it, in
/// their order. A task has what its line says, and the program and the sink at its line's place.
pub fn interfaces_of<R: Drop, W: Drop>(
    alloc: Global,
    lines: &[RunLine<'_>],
    programs: Vec<Program>,
    captures: Vec<Vec<R>>,
    sinks: Vec<W>,
) -> Result<Vec<Interface<R, W>>, AllocError>
    requires there { All (λ line. line.interface < length captures.items) lines.now }
    requires programs { length programs.items ≡ length lines.now }
    requires sinks { length sinks.items ≡ length lines.now }
    ensures { IfOk result (λ interfaces. AreLaidOut (places_of lines.now) (tasks_of lines.now programs.items sinks.items) captures.items interfaces.items) }
{
    let mut interfaces = bare_interfaces(alloc, captures)?;
    for ((line, program), sink) in lines.iter().zip(programs).zip(sinks) {
        let task = task_of(line, program, sink);
        interfaces[line.interface].tasks.push(task)?;
    }
    Ok(interfaces)
}

/// The sinks of all listeners, in the order of the lines, whose interfaces have these numbers.
/// `sinks` is empty and has room for them.
pub fn sinks_of<R: Drop, W: Drop>(
    mut reports: Vec<InterfaceReport<R, W>>,
    places: &[usize],
    mut sinks: Vec<W>,
) -> Vec<W>
    requires there { All (λ place. place < length reports.items) places.now }
    requires counts { HaveTheirListeners places.now reports.items }
    requires room { (vec_len sinks ≡ 0) × (length places.now ≤ vec_capacity sinks) }
    ensures lines { length result.items ≡ length places.now }
    ensures back { AreSinksOf places.now reports.items result.items }
{
    for place in places {
        let ListenerReport { sink, .. } = reports[*place].listeners.remove(0);
        sinks.push_reserved(sink);
    }
    sinks
}
