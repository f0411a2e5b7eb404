//! Steps over listeners.

ghost use Rattle.std.specs.Prelude.{◌≡◌, ◌<◌, ◌∷◌, List, map, length, All, IfOk, OnOk, IsTrue, ◌↔◌, MatchOption};
ghost use Rattle.listener.specs.PlainList as P;
ghost use Rattle.tap_steps.specs.OwnSteps.{Names, AllName, FirstMissing};
ghost use Rattle.tap_steps.specs.Watching.{played, one_stepped, arrived_at, CountsFit};
ghost use Rattle.tap_steps.specs.declared.step.Step.{Step};

use crate::playlist::PlacedPacket;
use crate::step::Step;
use crate::watched::Watched;
use std::alloc::{AllocError, Global};

fn names(step: Step, listeners: usize) -> bool
    ensures { IsTrue result ↔ Names listeners step }
{
    match step {
        Step::Arrive => true,
        Step::Flush(l) | Step::Read(l) | Step::Close(l) => (l as usize) < listeners,
    }
}

/// The first step that names a listener that does not exist.
pub fn first_without_listener(steps: &[Step], listeners: usize) -> Option<usize>
    ensures { MatchOption result (AllName listeners steps.now) (FirstMissing listeners steps.now) }
{
    for (place, step) in steps.iter().enumerate() {
        if !names(*step, listeners) {
            return Some(place);
        }
    }
    None
}

/// A packet arrives at each listener.
fn arrive_all(watched: &mut Vec<Watched>, placed: &PlacedPacket) -> Result<(), AllocError>
    requires { CountsFit 1 watched.old.items }
    ensures { OnOk result (watched.new.items ≡ map (arrived_at placed.now) watched.old.items) }
{
    for one in watched.iter_mut() {
        one.arrive(placed)?;
    }
    Ok(())
}

fn flush_one(watched: &mut Vec<Watched>, l: usize) -> Result<(), AllocError>
    requires { l < length watched.old.items }
    ensures { OnOk result (watched.new.items ≡ one_stepped l P.Flush watched.old.items) }
{
    let one = &mut watched[l];
    one.flush()
}

fn read_one(alloc: Global, watched: &mut Vec<Watched>, l: usize) -> Result<(), AllocError>
    requires { l < length watched.old.items }
    ensures { OnOk result (watched.new.items ≡ one_stepped l P.Read watched.old.items) }
{
    let one = &mut watched[l];
    one.read(alloc)
}

fn close_one(watched: &mut Vec<Watched>, l: usize) -> Result<(), AllocError>
    requires { l < length watched.old.items }
    ensures { OnOk result (watched.new.items ≡ one_stepped l P.Close watched.old.items) }
{
    let one = &mut watched[l];
    one.close()
}

/// Plays one step, and returns the rest of the playlist.
fn play_step<'a>(
    alloc: Global,
    watched: &mut Vec<Watched>,
    step: Step,
    rest: &'a [PlacedPacket],
) -> Result<&'a [PlacedPacket], AllocError>
    requires names { Names (length watched.old.items) step }
    requires fit { CountsFit (length rest.now) watched.old.items }
    ensures ok { IfOk result (λ left. (later : List Step) → played (step ∷ later) rest.now watched.old.items ≡ played later left.now watched.new.items) }
    ensures fit { IfOk result (λ left. CountsFit (length left.now) watched.new.items) }
    ensures len { OnOk result (length watched.new.items ≡ length watched.old.items) }
{
    match step {
        Step::Arrive => {
            let Some((placed, left)) = rest.split_first() else {
                return Ok(rest);
            };
            arrive_all(watched, placed)?;
            return Ok(left);
        }
        Step::Flush(l) => {
            flush_one(watched, l as usize)?;
            return Ok(rest);
        }
        Step::Read(l) => {
            read_one(alloc, watched, l as usize)?;
            return Ok(rest);
        }
        Step::Close(l) => {
            close_one(watched, l as usize)?;
            return Ok(rest);
        }
    }
}

/// All steps, over the packets of a playlist.
pub fn play(
    alloc: Global,
    watched: &mut Vec<Watched>,
    steps: &[Step],
    playlist: &[PlacedPacket],
) -> Result<(), AllocError>
    requires names { All (Names (length watched.old.items)) steps.now }
    requires fit { CountsFit (length playlist.now) watched.old.items }
    ensures { OnOk result (watched.new.items ≡ played steps.now playlist.now watched.old.items) }
{
    let mut rest = playlist;
    for step in steps {
        rest = play_step(alloc, watched, *step, rest)?;
    }
    Ok(())
}
