//! What is made of steps that are played: reports, answers, or a picture.

ghost use Rattle.std.specs.Prelude.{◌≡◌, IfErr, IfOk, map};
ghost use Rattle.bpftap_c.specs.Memory.{PutsText};
ghost use Rattle.bpftap_c.specs.Steps.{texts_of, replay_of, no_replay, IsAnswered, IsDrawn, IsReported, IsUnplayed};
ghost use Rattle.bpftap_c.specs.declared.outcome.BpftapResult.{BpftapResult};

use crate::memory::put_text;
use crate::outcome::{BpftapResult, Failure, failed, number_of};
use crate::steps::{BpftapCapture, BpftapReplay};
use line_text::LineForm;
use std::alloc::{AllocError, Global};
use tap::{replay, trace};
use tap_picture::write_picture;
use tap_text::answers::AnswerPrinter;
use tap_text::plan::read_plan;
use tap_text::report::print_reports_in;

/// A text that was made of steps that were played.
#[derive(Drop)]
pub(crate) struct Played {
    pub text: Vec<u8>,
    /// The record fault that a capture ended with, and the number of that capture.
    pub record_fault: Option<(u32, savefile::Fault)>,
}

/// The bytes of each capture.
fn slices_of<'a>(alloc: Global, captures: &[BpftapCapture<'a>]) -> Result<Vec<&'a [u8]>, AllocError>
    ensures { IfOk result (λ slices. map (λ s. s.now) slices.items ≡ texts_of captures.now) }
{
    let mut slices = Vec::with_capacity(alloc, captures.len())?;
    for capture in captures {
        slices.push(capture.bytes)?;
    }
    Ok(slices)
}

/// The reports in this form, or why there are none.
pub(crate) fn reports_text(
    alloc: Global,
    form: LineForm,
    listeners: &[u8],
    script: &[u8],
    captures: &[BpftapCapture<'_>],
) -> Result<Played, Failure>
    ensures ok { IfOk result (λ p. IsReported form listeners.now script.now (texts_of captures.now) p.text.items p.record_fault) }
    ensures err { IfErr result (IsUnplayed listeners.now script.now (texts_of captures.now)) }
{
    let captures = slices_of(alloc, captures)?;
    let plan = read_plan(alloc, listeners, script)?;
    let (specs, steps) = (plan.specs.as_slice(), plan.steps.as_slice());
    let (reports, record_fault) = replay(alloc, captures.as_slice(), specs, steps)?;
    let mut text = Vec::new(alloc);
    match print_reports_in(form, reports.as_slice(), &mut text) {
        Ok(()) => Ok(Played { text, record_fault }),
        Err(_) => Err(Failure::NoMemory),
    }
}

/// What listeners answer to the steps, in this form, or why there are no answers.
pub(crate) fn answers_text(
    alloc: Global,
    form: LineForm,
    listeners: &[u8],
    script: &[u8],
    captures: &[BpftapCapture<'_>],
) -> Result<Played, Failure>
    ensures ok { IfOk result (λ p. IsAnswered form listeners.now script.now (texts_of captures.now) p.text.items p.record_fault) }
    ensures err { IfErr result (IsUnplayed listeners.now script.now (texts_of captures.now)) }
{
    let captures = slices_of(alloc, captures)?;
    let plan = read_plan(alloc, listeners, script)?;
    let (specs, steps) = (plan.specs.as_slice(), plan.steps.as_slice());
    let trace = trace(alloc, captures.as_slice(), specs, steps)?;
    let mut printer = AnswerPrinter::new(alloc, specs, &trace)?;
    let mut text = Vec::new(alloc);
    match printer.write_answers(form, steps, &mut text) {
        Ok(()) => Ok(Played {
            text,
            record_fault: trace.record_fault,
        }),
        Err(_) => Err(Failure::NoMemory),
    }
}

/// The picture, or why there is none. No clause says what it shows.
pub(crate) fn picture(
    alloc: Global,
    listeners: &[u8],
    script: &[u8],
    captures: &[BpftapCapture<'_>],
) -> Result<Played, Failure>
    ensures ok { IfOk result (λ p. IsDrawn listeners.now script.now (texts_of captures.now) p.record_fault) }
    ensures err { IfErr result (IsUnplayed listeners.now script.now (texts_of captures.now)) }
{
    let captures = slices_of(alloc, captures)?;
    let plan = read_plan(alloc, listeners, script)?;
    let (specs, steps) = (plan.specs.as_slice(), plan.steps.as_slice());
    let trace = trace(alloc, captures.as_slice(), specs, steps)?;
    let mut text = Vec::new(alloc);
    match write_picture(specs, steps, &trace, &mut text) {
        Ok(()) => Ok(Played {
            text,
            record_fault: trace.record_fault,
        }),
        Err(_) => Err(Failure::NoMemory),
    }
}

/// The result of a call that put a text: the record fault that a capture ended with, if the text
/// found room, and else what `put` says.
fn replay_of(put: BpftapResult, record_fault: Option<(u32, savefile::Fault)>) -> BpftapReplay
    ensures { result ≡ replay_of put record_fault }
{
    match record_fault {
        Some((number, fault)) if put.fault == 0 => {
            let fault = failed(Failure::Capture(fault));
            BpftapReplay {
                fault: fault.fault,
                number,
                size: put.size,
                place: fault.place,
            }
        }
        _ => BpftapReplay {
            fault: put.fault,
            number: 0,
            size: put.size,
            place: put.place,
        },
    }
}

/// The result of a call that has no reports.
fn no_replay(failure: Failure) -> BpftapReplay
    ensures { result ≡ no_replay failure }
{
    let told = failed(failure);
    BpftapReplay {
        fault: told.fault,
        number: number_of(failure),
        size: told.size,
        place: told.place,
    }
}

/// Puts the text that was made into the caller's memory, or returns why there is none.
pub(crate) fn put_played(played: Result<Played, Failure>, to: &mut [u8]) -> BpftapReplay
    ensures text { IfOk played (λ p. (put : BpftapResult) × PutsText p.text.items to.old to.new put × (result ≡ replay_of put p.record_fault)) }
    ensures none { IfErr played (λ failure. (result ≡ no_replay failure) × (to.new ≡ to.old)) }
{
    match played {
        Ok(played) => replay_of(put_text(played.text.as_slice(), to), played.record_fault),
        Err(failure) => no_replay(failure),
    }
}
