//! A walk over captures: each is visited once, in order.

ghost use Rattle.std.specs.Prelude.{◌≡◌, ◌≢◌, ◌↔◌, ℕ, Bool, List, Result, Err, Ok, true};
ghost use Rattle.std.specs.Io.KnownBytes.{Consumes};
ghost use Rattle.cli_walk.specs.Walking.{Visits, Walked, end_of};

use savefile::{Fault, Source};
use std::alloc::Global;

/// The capture that ended a walk by a fault.
#[derive(Clone, Copy, Debug, PartialEq, Eq)]
pub struct Stop {
    /// Its number, from 0.
    pub number: usize,
    pub fault: Fault,
}

/// What a visit came to.
#[derive(Debug, Drop)]
pub struct Visited<R> {
    /// The source of the capture.
    pub source: R,
    /// Whether the walk goes on to the next capture; or the fault that ended this one.
    pub goes_on: Result<bool, Fault>,
}

/// What is done with each capture of a walk. It changes a state, such as counts, and may print to
/// `out`.
pub trait Visitor<R: Source, S, O> {
    ghost use Rattle.cli_walk.specs.declared.walk.Visited.{Visited};

    /// What a visit to the capture of this number does: the state, what is printed to, and the
    /// source before it; what it came to; and the state and what is printed to after it.
    ghost visits: { Self → ℕ → S → O → R → Visited R → S → O → Type 0 };

    /// Reads the capture of this number.
    fn visit(&self, number: usize, capture: R, state: &mut S, out: &mut O) -> Visited<R>
        ensures visits { visits self.now number state.old out.old capture result state.new out.new }

        // The next bytes of the source are taken, and its fault is reported exactly if it failed.
        ensures gave { (given : List ℕ) × Consumes (R.left capture) (R.left result.source) given }
        ensures source_broke { (result.goes_on ≡ Err Fault.Device) ↔ (R.failures result.source ≢ R.failures capture) };
}

/// How a walk ended.
#[derive(Debug, Drop)]
pub struct Walk<R> {
    /// The sources of the captures, in order. Those after the capture that ended the walk are as
    /// they were.
    pub sources: Vec<R>,
    /// Whether each visit went on to the next capture; or the capture whose fault ended the walk.
    pub end: Result<bool, Stop>,
}

/// How a walk ends after the visit to the capture of this number.
fn end_of(number: usize, goes_on: Result<bool, Fault>) -> Result<bool, Stop>
    ensures { result ≡ end_of number goes_on }
{
    match goes_on {
        Ok(goes_on) => Ok(goes_on),
        Err(fault) => Err(Stop { number, fault }),
    }
}

/// Visits the capture of this number if the walk goes on, and returns its source and how the walk
/// then stands.
fn visit_next<R: Source, S, O, V: Visitor<R, S, O>>(
    visitor: &V,
    number: usize,
    capture: R,
    state: &mut S,
    out: &mut O,
    end: Result<bool, Stop>,
) -> (R, Result<bool, Stop>)
    ensures visits { end ≡ Ok true → (goes_on : Result Bool Fault) × (result.1 ≡ end_of number goes_on)
        × Visits R.left R.failures (V.visits visitor.now) number state.old out.old capture result.0 goes_on state.new out.new }
    ensures stays { end ≢ Ok true → (result.0 ≡ capture) × (result.1 ≡ end) × (state.new ≡ state.old) × (out.new ≡ out.old) }
{
    if end != Ok(true) {
        return (capture, end);
    }
    let Visited { source, goes_on } = visitor.visit(number, capture, state, out);
    (source, end_of(number, goes_on))
}

/// Visits captures, in order, until a visit does not go on or ends in a fault.
///
/// If memory is refused for their sources, the end is [`Fault::NoMemory`] of capture 0, and none is
/// visited.
pub fn visit_captures<R: Source + Drop, S, O, V: Visitor<R, S, O>>(
    alloc: Global,
    captures: Vec<R>,
    visitor: &V,
    state: &mut S,
    out: &mut O,
) -> Walk<R>
    ensures { Walked R.left R.failures (V.visits visitor.now) captures.items result.sources.items state.old out.old state.new out.new result.end }
{
    let mut sources = match Vec::with_capacity(alloc, captures.len()) {
        Ok(sources) => sources,
        Err(_) => {
            return Walk {
                sources: captures,
                end: Err(Stop {
                    number: 0,
                    fault: Fault::NoMemory,
                }),
            };
        }
    };
    let mut end = Ok(true);
    for capture in captures {
        let (source, next) = visit_next(visitor, sources.len(), capture, state, out, end);
        sources.push_reserved(source);
        end = next;
    }
    Walk { sources, end }
}
