//! Steps that are played to listeners over captures.

ghost use Rattle.line_text.specs.declared.form.LineForm.TheVariants.{Text, Json};
ghost use Rattle.bpftap_c.specs.Steps.{texts_of, PutsAnswers, PutsPicture, PutsReports};

use crate::played::{answers_text, picture, put_played, reports_text};
use line_text::LineForm;
use std::alloc::Global;

/// A capture. In C a pointer and a length.
#[repr(C)]
#[derive(Clone, Copy)]
pub struct BpftapCapture<'a> {
    pub bytes: &'a [u8],
}

/// What `bpftap_steps` returns.
#[repr(C)]
#[derive(Clone, Copy, Debug, PartialEq, Eq)]
pub struct BpftapReplay {
    /// 0, or the number of a fault.
    pub fault: u32,
    /// Which listener or capture the fault is of.
    pub number: u32,
    /// How many bytes the call put into the caller's memory, or how many there are, if they found
    /// no room.
    pub size: usize,
    /// Where the fault is.
    pub place: usize,
}

/// Plays a script to listeners over captures, and puts what `bpftap steps` prints of it, the
/// reports, into the caller's memory. If a capture ends with a record fault, the packets before it
/// are played, and that fault is returned beside the size. If there are no reports, the fault that
/// `bpftap steps` prints is returned, with the number of its listener or capture, and nothing is
/// put.
#[unsafe(no_mangle)]
pub extern "C" fn bpftap_steps(
    alloc: Global,
    listeners: &[u8],
    script: &[u8],
    captures: &[BpftapCapture<'_>],
    to: &mut [u8],
) -> BpftapReplay
    ensures { PutsReports Text listeners.now script.now (texts_of captures.now) to.old to.new result }
{
    let reports = reports_text(alloc, LineForm::Text, listeners, script, captures);
    put_played(reports, to)
}

/// Does what [`bpftap_steps`] does, and puts the reports as JSON Lines, as `bpftap steps --json`
/// prints them.
#[unsafe(no_mangle)]
pub extern "C" fn bpftap_steps_json(
    alloc: Global,
    listeners: &[u8],
    script: &[u8],
    captures: &[BpftapCapture<'_>],
    to: &mut [u8],
) -> BpftapReplay
    ensures { PutsReports Json listeners.now script.now (texts_of captures.now) to.old to.new result }
{
    let reports = reports_text(alloc, LineForm::Json, listeners, script, captures);
    put_played(reports, to)
}

/// Plays a script to listeners over captures, and puts what `bpftap steps -v` prints before its
/// reports into the caller's memory: a line for each step, and below it one for each listener that
/// the step reaches, with what it answered, and why. The result is that of `bpftap_steps`.
#[unsafe(no_mangle)]
pub extern "C" fn bpftap_steps_answers(
    alloc: Global,
    listeners: &[u8],
    script: &[u8],
    captures: &[BpftapCapture<'_>],
    to: &mut [u8],
) -> BpftapReplay
    ensures { PutsAnswers Text listeners.now script.now (texts_of captures.now) to.old to.new result }
{
    let answers = answers_text(alloc, LineForm::Text, listeners, script, captures);
    put_played(answers, to)
}

/// Does what [`bpftap_steps_answers`] does, and puts the answers as JSON Lines, as
/// `bpftap steps -v --json` prints them.
#[unsafe(no_mangle)]
pub extern "C" fn bpftap_steps_answers_json(
    alloc: Global,
    listeners: &[u8],
    script: &[u8],
    captures: &[BpftapCapture<'_>],
    to: &mut [u8],
) -> BpftapReplay
    ensures { PutsAnswers Json listeners.now script.now (texts_of captures.now) to.old to.new result }
{
    let answers = answers_text(alloc, LineForm::Json, listeners, script, captures);
    put_played(answers, to)
}

/// Plays a script to listeners over captures, and puts the picture that `bpftap steps -p` draws of
/// it, SVG, into the caller's memory. The result is that of `bpftap_steps`. No clause says what the
/// picture shows.
#[unsafe(no_mangle)]
pub extern "C" fn bpftap_picture(
    alloc: Global,
    listeners: &[u8],
    script: &[u8],
    captures: &[BpftapCapture<'_>],
    to: &mut [u8],
) -> BpftapReplay
    ensures { PutsPicture listeners.now script.now (texts_of captures.now) to.old to.new result }
{
    let picture = picture(alloc, listeners, script, captures);
    put_played(picture, to)
}
