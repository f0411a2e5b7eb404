//! Listeners that are played a script over captures: the function under `bpftap steps`.

ghost use Rattle.std.specs.Prelude.{◌≡◌, ◌⊎◌, ◌++◌, true, false, map, IfOk, OnErr};
ghost use Rattle.std.specs.Io.KnownBytes.{Keeps};
ghost use Rattle.line_text.specs.declared.form.LineForm.TheVariants.{Text};
ghost use Rattle.line_text.specs.Sending.{Takes, streams};
ghost use Rattle.cli_text.specs.declared.status.Status.TheVariants.{Failed, Refused};
ghost use Rattle.tap_text.specs.Answers.{answers_from};
ghost use Rattle.tap_text.specs.Printed.{reports_in};
ghost use Rattle.cli_steps.specs.Playing.{IsPrintedWhole, trace_text, is_explained, is_traced, PlaysAs};
ghost use Rattle.cli_steps.specs.Stepping.{Steps, StepsTo};
ghost use Rattle.cli_steps.specs.Telling.{PrintsPlayed};

use crate::report::{report_end, report_refusal};
use cli_text::Status;
use cli_text::report::{Outcome, report_line};
use cli_watch::output::PrintSink;
use line_text::LineForm;
use std::alloc::{AllocError, Global};
use std::io;
use std::io::Write;
use tap::{Fault, Report, Step, Trace, replay, trace};
use tap_text::answers::AnswerPrinter;
use tap_text::plan::{StepsPlan, read_plan};
use tap_text::report::print_reports_in;

/// What a replay has to print and return.
#[derive(Clone, Copy, Debug, PartialEq, Eq)]
pub enum Detail {
    /// The reports are printed.
    Reports,
    /// The reports are printed, and the trace is handed on.
    Trace,
    /// The answers are printed and then the reports, and the trace is handed on.
    Answers,
}

/// What a replay prints and hands on, and the form of its lines.
#[derive(Clone, Copy, Debug, PartialEq, Eq)]
pub struct Printing {
    pub form: LineForm,
    pub detail: Detail,
}

/// The result of a replay, beside what is printed.
#[derive(Drop)]
pub struct Replayed {
    /// The first capture that ended with a record fault, and that fault.
    pub record_fault: Option<(u32, savefile::Fault)>,
    /// The trace whose reports were printed, if it was wanted.
    pub trace: Option<Trace>,
}

/// Prints the answers, and then the reports.
fn print_both<O: Write>(
    form: LineForm,
    printer: &mut AnswerPrinter<'_>,
    steps: &[Step],
    reports: &[Report],
    out: &mut O,
) -> io::Result<()>
    ensures { Takes (O.contents out.old) (O.contents out.new) result
        (answers_from form 1 steps.now printer.old.packets.now printer.old.cursors.items ++ reports_in form reports.now) }
{
    printer.write_answers(form, steps, out)?;
    print_reports_in(form, reports, out)
}

/// Prints the answers of a trace, and then its reports. If memory is refused, nothing is printed.
fn print_explained<O: Write>(
    alloc: Global,
    form: LineForm,
    plan: &StepsPlan,
    trace: &Trace,
    out: &mut O,
) -> Result<io::Result<()>, AllocError>
    ensures prints { IfOk result (λ printed. Takes (O.contents out.old) (O.contents out.new) printed
        (trace_text form true plan.now.specs.items plan.now.steps.items trace.now ++ reports_in form trace.now.reports.items)) }
    ensures nothing { OnErr result (Keeps (O.contents out.old) (O.contents out.new)) }
{
    let mut printer = AnswerPrinter::new(alloc, plan.specs.as_slice(), trace)?;
    let (steps, reports) = (plan.steps.as_slice(), trace.reports.as_slice());
    Ok(print_both(form, &mut printer, steps, reports, out))
}

/// Prints a trace: its answers, if they are wanted, and then its reports. If memory is refused, nothing is printed.
fn print_trace<O: Write>(
    alloc: Global,
    printing: Printing,
    plan: &StepsPlan,
    trace: &Trace,
    out: &mut O,
) -> Result<io::Result<()>, AllocError>
    ensures prints { IfOk result (λ printed. Takes (O.contents out.old) (O.contents out.new) printed
        (trace_text printing.form (is_explained printing.detail) plan.now.specs.items plan.now.steps.items trace.now ++ reports_in printing.form trace.now.reports.items)) }
    ensures nothing { OnErr result (Keeps (O.contents out.old) (O.contents out.new)) }
{
    let reports = trace.reports.as_slice();
    match printing.detail {
        Detail::Answers => print_explained(alloc, printing.form, plan, trace, out),
        Detail::Trace => Ok(print_reports_in(printing.form, reports, out)),
        Detail::Reports => Ok(print_reports_in(printing.form, reports, out)),
    }
}

/// Hands on what was printed, and answers the exit status of the printing after that. Where nothing was printed, or the output failed
/// already, it does nothing.
fn hand_on<O: PrintSink>(printed: Status, out: &mut O) -> Status
    ensures bytes { Keeps (O.contents out.old) (O.contents out.new) }
    ensures ends { (result ≡ printed) ⊎ ((result ≡ Failed) × (printed ≡ Refused → ⊥)) }
    ensures handed_on { IsPrintedWhole result → O.waits out.new ≡ false }
{
    match printed {
        Status::Clean | Status::Damaged => match out.hand_on() {
            Ok(()) => printed,
            Err(_) => Status::Failed,
        },
        Status::Refused | Status::Failed | Status::Negative | Status::Undecided => printed,
    }
}

/// A plan, and the captures that it is played over.
#[derive(Clone, Copy)]
pub struct StepsReplay<'p, 'c, 't> {
    pub plan: &'p StepsPlan,
    pub captures: &'c [&'t [u8]],
}

impl StepsReplay<'_, '_, '_> {
    /// Plays, and prints the reports.
    fn play_reports<O: Write, E: Write>(
        self,
        alloc: Global,
        form: LineForm,
        out: &mut O,
        err: &mut E,
    ) -> (Outcome, Result<Replayed, Fault>)
        ensures { PlaysAs form false false (map (λ c. c.now) self.entry.captures.now) self.entry.plan.now.specs.items self.entry.plan.now.steps.items
            (streams (O.contents out.old) (E.contents err.old)) (streams (O.contents out.new) (E.contents err.new)) result.0 result.1 }
    {
        let StepsReplay { plan, captures } = self;
        match replay(
            alloc,
            captures,
            plan.specs.as_slice(),
            plan.steps.as_slice(),
        ) {
            Ok((reports, record_fault)) => {
                let printed = print_reports_in(form, reports.as_slice(), out);
                let replayed = Replayed {
                    record_fault,
                    trace: None,
                };
                (report_end(printed, record_fault, err), Ok(replayed))
            }
            Err(fault) => (report_refusal(fault, err), Err(fault)),
        }
    }

    /// Plays, prints the answers if they are wanted, and then the reports, and hands the trace on.
    fn play_trace<O: Write, E: Write>(
        self,
        alloc: Global,
        printing: Printing,
        out: &mut O,
        err: &mut E,
    ) -> (Outcome, Result<Replayed, Fault>)
        ensures { PlaysAs printing.form (is_explained printing.detail) true (map (λ c. c.now) self.entry.captures.now) self.entry.plan.now.specs.items self.entry.plan.now.steps.items
            (streams (O.contents out.old) (E.contents err.old)) (streams (O.contents out.new) (E.contents err.new)) result.0 result.1 }
    {
        let StepsReplay { plan, captures } = self;
        let traced = match trace(
            alloc,
            captures,
            plan.specs.as_slice(),
            plan.steps.as_slice(),
        ) {
            Ok(traced) => traced,
            Err(fault) => return (report_refusal(fault, err), Err(fault)),
        };
        match print_trace(alloc, printing, plan, &traced, out) {
            Ok(printed) => {
                let record_fault = traced.record_fault;
                let replayed = Replayed {
                    record_fault,
                    trace: Some(traced),
                };
                (report_end(printed, record_fault, err), Ok(replayed))
            }
            Err(AllocError) => (report_refusal(Fault::NoMemory, err), Err(Fault::NoMemory)),
        }
    }

    /// Plays once, and prints what each listener got, in the given detail. With [`Detail::Answers`] a line for each step comes before the
    /// reports, and below it one for each listener that the step reaches: what it answered, and why.
    ///
    /// It prints, reports and returns what [`steps`] says, and also returns the result of the replay, or the fault that was
    /// reported. With [`Detail::Answers`] memory may also be refused after the replay; then only that is reported, and nothing is
    /// printed, unless it is refused for a line ([`AnswerPrinter::new`]).
    pub fn play<O: Write, E: Write>(
        self,
        alloc: Global,
        printing: Printing,
        out: &mut O,
        err: &mut E,
    ) -> (Outcome, Result<Replayed, Fault>)
        ensures { PlaysAs printing.form (is_explained printing.detail) (is_traced printing.detail) (map (λ c. c.now) self.entry.captures.now)
            self.entry.plan.now.specs.items self.entry.plan.now.steps.items
            (streams (O.contents out.old) (E.contents err.old)) (streams (O.contents out.new) (E.contents err.new)) result.0 result.1 }
    {
        match printing.detail {
            Detail::Reports => self.play_reports(alloc, printing.form, out, err),
            Detail::Trace => self.play_trace(alloc, printing, out, err),
            Detail::Answers => self.play_trace(alloc, printing, out, err),
        }
    }

    /// Plays as [`play`](StepsReplay::play) does, and hands on what was printed. It reports nothing: who calls it does that.
    pub fn print<O: PrintSink>(
        self,
        alloc: Global,
        printing: Printing,
        out: &mut O,
    ) -> (Status, Result<Replayed, Fault>)
        ensures played { PrintsPlayed printing.form (is_explained printing.detail) (is_traced printing.detail)
            (map (λ c. c.now) self.entry.captures.now) self.entry.plan.now.specs.items self.entry.plan.now.steps.items
            (O.contents out.old) (O.contents out.new) result.0 result.1 }
        ensures handed_on { IsPrintedWhole result.0 → O.waits out.new ≡ false }
    {
        let (outcome, replayed) = self.play(alloc, printing, out, &mut io::sink());
        (hand_on(outcome.status, out), replayed)
    }
}

/// The texts of the files that [`steps`] plays.
#[derive(Clone, Copy)]
pub struct StepsTexts<'c, 't> {
    pub listeners: &'t [u8],
    pub script: &'t [u8],
    pub captures: &'c [&'t [u8]],
}

/// [`steps`], with whether standard error took what was reported.
pub fn steps_told<O: Write, E: Write>(
    alloc: Global,
    texts: StepsTexts<'_, '_>,
    out: &mut O,
    err: &mut E,
) -> Outcome
    ensures { Steps Text texts.entry.listeners.now texts.entry.script.now (map (λ c. c.now) texts.entry.captures.now)
        (streams (O.contents out.old) (E.contents err.old)) (streams (O.contents out.new) (E.contents err.new)) result }
{
    let printing = Printing {
        form: LineForm::Text,
        detail: Detail::Reports,
    };
    match read_plan(alloc, texts.listeners, texts.script) {
        Ok(plan) => {
            let replay = StepsReplay {
                plan: &plan,
                captures: texts.captures,
            };
            replay.play(alloc, printing, out, err).0
        }
        Err(fault) => Outcome {
            status: Status::Refused,
            told: report_line(fault, err),
        },
    }
}

/// Plays a script over captures to listeners, and prints for each listener its counts, the batches that were read from it,
/// and what its buffers hold.
///
/// A line of LISTENERS is `SNAP CAPACITY EXPRESSION`, with an `i` after CAPACITY for the mode Immediate; SNAP is 0 to
/// 262,144 bytes, and 0 means the largest. A line of SCRIPT is `arrive`, `flush L`, `read L` or `close L`. The first
/// bad line is reported as `Listeners N` or `Script N`, N from 1.
///
/// The exit status is 0 if all went well; 1 for a refusal or out of memory, with nothing printed on `out`; 2 if a
/// capture ended with a record fault, which is reported after the reports; 3 if `out` failed. It prints the reports of
/// [`tap::replay`], whole for 0 and 2.
pub fn steps<O: Write, E: Write>(
    alloc: Global,
    listeners: &[u8],
    script: &[u8],
    captures: &[&[u8]],
    out: &mut O,
    err: &mut E,
) -> u8
    ensures { StepsTo Text listeners.now script.now (map (λ c. c.now) captures.now)
        (streams (O.contents out.old) (E.contents err.old)) (streams (O.contents out.new) (E.contents err.new)) result }
{
    let texts = StepsTexts {
        listeners,
        script,
        captures,
    };
    steps_told(alloc, texts, out, err).status.code()
}
