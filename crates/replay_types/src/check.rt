//! Tests all numbers of a replay, before anything is made.

ghost use Rattle.std.specs.Prelude.{◌≡◌, ◌≤◌, ◌≢◌, length, IfErr, IsTrue, OnOk, All, ◌↔◌};
ghost use Rattle.replay_types.specs.Refusals.{IsFirst, IsInBounds, NoneStands, TaskIsRight, RefusesTask, RefusesTasks, AreFew};
ghost use Rattle.replay_types.specs.declared.fault.RunFault.TheVariants.{NoStart};

use crate::fault::RunFault;
use crate::task::{Interface, Task};
use listener::{OpenFault, check_range};

/// The most interfaces of a replay.
pub const MAX_INTERFACES: usize = 16;

/// The most tasks of an interface.
pub const MAX_TASKS: usize = 64;

/// The most captures of an interface.
pub const MAX_CAPTURES: usize = 65_536;

/// The most buffers that go round between the two threads of a listener.
pub const MAX_SPARES: usize = 64;

// The contracts have the numbers.
const _: () = prove!(MAX_INTERFACES == 16);

const _: () = prove!(MAX_TASKS == 64);

const _: () = prove!(MAX_CAPTURES == 65_536);

const _: () = prove!(MAX_SPARES == 64);

/// Tests that there are not too many of anything.
fn are_few<R, W>(interfaces: &[Interface<R, W>]) -> bool
    ensures { IsTrue result ↔ AreFew interfaces.now }
{
    if interfaces.len() > MAX_INTERFACES {
        return false;
    }
    for interface in interfaces {
        if interface.tasks.len() > MAX_TASKS || interface.captures.len() > MAX_CAPTURES {
            return false;
        }
    }
    true
}

/// Tests the numbers of a task.
fn check_task<W>(task: &Task<W>) -> Result<(), OpenFault>
    ensures stands { OnOk result (TaskIsRight task.now) }
    ensures refuses { IfErr result (RefusesTask task.now) }
{
    check_range(task.snap, task.capacity)?;
    if task.spares < 1 || task.spares > MAX_SPARES {
        return Err(OpenFault::BadCapacity);
    }
    Ok(())
}

/// Tests the numbers of the i-th interface's tasks.
fn check_tasks<W>(i: u32, tasks: &[Task<W>]) -> Result<(), RunFault>
    requires { length tasks.now ≤ 64 }
    ensures stand { OnOk result (All TaskIsRight tasks.now) }
    ensures refuses { IfErr result (RefusesTasks i tasks.now) }
{
    for (k, task) in tasks.iter().enumerate() {
        if let Err(fault) = check_task(task) {
            return Err(RunFault::Open(i, k as u32, fault));
        }
    }
    Ok(())
}

/// Tests all numbers.
pub fn check_all<R, W>(interfaces: &[Interface<R, W>]) -> Result<(), RunFault>
    ensures stand { OnOk result (NoneStands interfaces.now) }
    ensures first { IfErr result (IsFirst interfaces.now) }
    ensures opened { IfErr result (λ fault. fault ≢ NoStart) }
{
    if !are_few(interfaces) {
        return Err(RunFault::TooMany);
    }
    for (i, interface) in interfaces.iter().enumerate() {
        check_tasks(i as u32, interface.tasks.as_slice())?;
    }
    Ok(())
}
