//! The replay of captures to listeners.

ghost use Rattle.std.specs.Prelude.{List, map, IfOk, IfErr, OnOk};
ghost use Rattle.tap.specs.Answers.{Traces};
ghost use Rattle.tap.specs.Filters.{AreExpressionsOf};
ghost use Rattle.tap.specs.Headline.{Replays};
ghost use Rattle.tap.specs.Refusals.{IsFirst, NoneStands};
ghost use Rattle.tap.specs.Opening.{ComesTo};
ghost use Rattle.tap.specs.declared.fault.Fault.TheVariants.{NoMemory};
ghost use Rattle.tap_steps.specs.declared.playlist.PlacedPacket.{PlacedPacket};

use crate::fault::Fault;
use crate::open::open_all;
use filterlang::Expr;
use std::alloc::Global;
use tap_steps::{
    MAX_CAPTURES, MAX_LISTENERS, Playlist, Report, Spec, Step, Trace, Watched,
    first_without_listener, play, read_playlist, report_all, trace_all,
};

/// The result of a replay.
#[derive(Drop)]
struct Playback {
    playlist: Playlist,
    watched: Vec<Watched>,
    expressions: Vec<Option<Expr>>,
}

/// Plays steps over the packets of captures.
fn play_all(
    alloc: Global,
    captures: &[&[u8]],
    specs: &[Spec],
    steps: &[Step],
    traced: bool,
) -> Result<Playback, Fault>
    ensures ok { IfOk result (λ o. ComesTo traced (map (λ c. c.now) captures.now) specs.now steps.now o.playlist.arrivals.items o.playlist.record_fault o.watched.items) }
    ensures expressions { IfOk result (λ o. AreExpressionsOf specs.now o.expressions.items) }
    ensures stands { OnOk result (NoneStands (map (λ c. c.now) captures.now) specs.now steps.now) }
    ensures first { IfErr result (IsFirst (map (λ c. c.now) captures.now) specs.now steps.now) }
{
    if specs.len() > MAX_LISTENERS || captures.len() > MAX_CAPTURES {
        return Err(Fault::TooMany);
    }
    if let Some(place) = first_without_listener(steps, specs.len()) {
        return Err(Fault::NoListener(place));
    }
    let playlist = read_playlist(alloc, captures)?;
    let (mut watched, expressions) = open_all(alloc, specs, traced)?;
    play(alloc, &mut watched, steps, playlist.arrivals.as_slice())?;
    Ok(Playback {
        playlist,
        watched,
        expressions,
    })
}

/// Replays captures to listeners, step by step, and reports what each listener got.
///
/// For every list of captures, accepted expression, snapshot length and list of steps, what a
/// listener has read followed by what its buffers hold is exactly the packets that its expression
/// accepts before its close, cut, with capture and place, in order of arrival, each once, without
/// those that found no room; its received, matched and dropped counts are exact.
///
/// The reports are in the order of `specs`. If a filter is a program, it accepts a packet if it
/// does not answer 0, and the answer cuts the packet too. The packets are those of the captures in
/// order. The first capture that ends with a record fault gives its packets before that fault, and
/// no later capture gives any. Its number and the fault are the second part of the result.
///
/// The faults are looked for in this order, and the first one found is returned:
/// [`Fault::TooMany`] if there are over [`MAX_LISTENERS`] listeners or over [`MAX_CAPTURES`]
/// captures; [`Fault::NoListener`] with the first step that names a listener that does not exist;
/// [`Fault::Capture`] with the first capture whose header is refused; then listener by listener
/// [`Fault::Expression`], [`Fault::Compile`] and [`Fault::Open`]. [`Fault::NoMemory`] can come at
/// any point. A fault gives no report.
pub fn replay(
    alloc: Global,
    captures: &[&[u8]],
    specs: &[Spec],
    steps: &[Step],
) -> Result<(Vec<Report>, Option<(u32, savefile::Fault)>), Fault>
    // The headline.
    ensures tells { IfOk result (λ r. (playlist : List PlacedPacket) × Replays (map (λ c. c.now) captures.now) specs.now steps.now playlist r.1 r.0.items) }
    // If there are reports, no fault applies; if there is a fault, none before it applies.
    ensures stands { OnOk result (NoneStands (map (λ c. c.now) captures.now) specs.now steps.now) }
    ensures first { IfErr result (IsFirst (map (λ c. c.now) captures.now) specs.now steps.now) }
{
    listener::laws::answers();
    listener::laws::looking_back();
    listener::laws::fitting();
    let Playback {
        playlist,
        watched,
        ..
    } = play_all(alloc, captures, specs, steps, false)?;
    let reports = report_all(alloc, watched)?;
    Ok((reports, playlist.record_fault))
}

/// Replays captures as [`replay`] does, with the same faults. It also returns the packets that
/// arrived, each listener's expression, its answer to each of its steps, and its state before each.
///
/// Each step has one right answer, that of the plain list, and this is the one returned. The
/// answers take memory for each step, so [`Fault::NoMemory`] can come although [`replay`] gives
/// reports or another fault.
pub fn trace(
    alloc: Global,
    captures: &[&[u8]],
    specs: &[Spec],
    steps: &[Step],
) -> Result<Trace, Fault>
    // The headline, over the playlist that is returned.
    ensures tells { IfOk result (λ r. Replays (map (λ c. c.now) captures.now) specs.now steps.now r.playlist.items r.record_fault r.reports.items) }
    // The answers, over the same playlist.
    ensures answers { IfOk result (λ r. Traces (map (λ c. c.now) captures.now) specs.now steps.now r.playlist.items r.record_fault (map (λ a. a.items) r.answers.items)) }
    // The expressions, each of which its listener's filter reads as.
    ensures expressions { IfOk result (λ r. AreExpressionsOf specs.now r.expressions.items) }
    // If there are reports, no fault applies; if there is a fault, none before it applies.
    ensures stands { OnOk result (NoneStands (map (λ c. c.now) captures.now) specs.now steps.now) }
    ensures first { IfErr result (IsFirst (map (λ c. c.now) captures.now) specs.now steps.now) }
{
    listener::laws::answers();
    listener::laws::looking_back();
    listener::laws::fitting();
    let Playback {
        playlist,
        watched,
        expressions,
    } = play_all(alloc, captures, specs, steps, true)?;
    let (reports, answers) = trace_all(alloc, watched)?;
    Ok(Trace {
        reports,
        answers,
        expressions,
        playlist: playlist.arrivals,
        record_fault: playlist.record_fault,
    })
}
