//! Two filters decided for every packet, over files that contracts can know.

ghost use Rattle.std.specs.Prelude.{◌≡◌, ◌≢◌, ℕ, List, [], true, false, All, IfOk, IfErr, OnOk};
ghost use Rattle.fault_report.specs.Reports.{TellsAmong};
ghost use Rattle.cli_answers.specs.Telling.{TellsUnprinted};
ghost use Rattle.cli_answers.specs.declared.printing.Unprinted.TheVariants.{NoMemory};
ghost use Rattle.cli_compare.specs.Comparing.{DecidesAnswer, DecidesPair, IsOut, KeepsOthers, WritesPacket, out_of};
ghost use Rattle.cli_compare.specs.Deciding.{AnswersPair, HoldsOfPair, IsAnswerStatus, IsStatusAfter, IsUnanswered, PrintsAnswer, form_of, packet_of};
ghost use Rattle.cli_compare.specs.Telling.{TellsWith};

use crate::asked::accept_pair;
use crate::notice::Notice;
use crate::outcome::OutFault;
use crate::report::{report_answer, report_out, report_uncompared};
use crate::sameness::{BUDGET, Decider, decide_pair, print_sameness, witness_of};
use crate::witness::write_witness;
use cli_answers::printing::Unprinted;
use cli_args::compare::CompareWords;
use cli_report::HintSink;
use cli_store::FileStore;
use cli_text::Status;
use cli_watch::Screen;
use cli_watch::output::PrintSink;
use filter_same::{Sameness, Witness};
use line_text::LineForm;
use savefile::Fault;
use std::io;

/// What writing OUT came to, by how it was closed and how its savefile was written.
fn out_of(closed: io::Result<()>, written: Result<(), Fault>) -> Result<(), OutFault>
    ensures { result ≡ out_of closed written }
{
    match (closed, written) {
        (Ok(()), Ok(())) => Ok(()),
        (Ok(()), Err(_)) => Err(OutFault::Unwritten(None)),
        (Err(error), _) => Err(OutFault::Unwritten(Some(error))),
    }
}

/// Writes a witness to OUT, which is made only now, and closes it.
#[inline(never)]
fn write_out<'p, F: FileStore<'p>>(
    files: &mut F,
    path: &'p str,
    witness: &Witness,
) -> Result<(), OutFault>
    requires apart { F.known ≡ true → All (λ read. read ≢ F.place files.old path.now) (F.opened files.old) }
    ensures others { F.known ≡ true → (p : List ℕ) → p ≢ F.place files.old path.now → F.text files.new p ≡ F.text files.old p }
    ensures out { F.known ≡ true → IsOut (F.text files.old) (F.text files.new) (F.failed files.new) (F.place files.old path.now) witness.now result }
    ensures closed { F.known ≡ true → F.pending files.new ≡ F.pending files.old }
{
    let sink = match files.create(path) {
        Ok(sink) => sink,
        Err(error) => return Err(OutFault::Unmade(error)),
    };
    let (sink, written) = write_witness(sink, witness);
    let closed = files.close(sink);
    out_of(closed, written)
}

/// Decides both filters, and prints the answer unless it is not wanted.
#[inline(never)]
fn answer<R: Screen, O: PrintSink>(
    decider: &Decider<'_, '_, R>,
    words: &CompareWords<'_>,
    out: &mut O,
) -> Result<Sameness, Unprinted>
    ensures holds { IfOk result (HoldsOfPair decider.now.pair.now) }
    ensures silent { words.now.quiet ≡ true → O.contents out.new ≡ O.contents out.old }
    ensures unanswered { words.now.quiet ≡ true → IfErr result (λ why. why ≡ NoMemory) }
    ensures printed { words.now.quiet ≡ false → IfOk result (λ s. PrintsAnswer (form_of words.now.json) decider.now.pair.now 2000000 s (O.contents out.old) (O.contents out.new)) }
    ensures fault { words.now.quiet ≡ false → IfErr result (IsUnanswered (form_of words.now.json) decider.now.pair.now 2000000 (O.contents out.old) (O.contents out.new)) }
    ensures handed_on { O.waits out.old ≡ false → OnOk result (O.waits out.new ≡ false) }
{
    if words.quiet {
        Ok(decide_pair(decider, BUDGET)?)
    } else {
        let form = LineForm::asked(words.json);
        print_sameness(decider, form, BUDGET, out)
    }
}

/// Reports an answer, and writes the packet that shows a difference to OUT, if that is asked for.
fn report_and_write<'p, F: FileStore<'p>, E: HintSink>(
    files: &mut F,
    words: &CompareWords<'p>,
    answer: &Result<Sameness, Unprinted>,
    err: &mut E,
) -> Status
    requires none_open { F.opened files.old ≡ [] }
    ensures status { IsStatusAfter words.now.output answer.now result }
    ensures writes { F.known ≡ true → WritesPacket (F.place files.old) (F.text files.old) (F.text files.new) (F.failed files.new) words.now.output (packet_of answer.now) answer.now (λ says. TellsAmong E.takes_hints E.failed E.contents E.fault_form says err.old err.new) result }
    ensures told { TellsUnprinted (λ says. TellsAmong E.takes_hints E.failed E.contents E.fault_form says err.old err.new) answer.now }
    ensures others { F.known ≡ true → KeepsOthers (F.place files.old) (F.text files.old) (F.text files.new) words.now.output }
    ensures closed { F.known ≡ true → F.pending files.new ≡ F.pending files.old }
{
    let status = report_answer(answer, err);
    let witness = match answer {
        Ok(sameness) => witness_of(sameness),
        Err(_) => None,
    };
    match (words.output, witness) {
        (Some(path), Some(witness)) => {
            let written = write_out(files, path, witness);
            status.max(report_out(&written, path, err))
        }
        _ => status,
    }
}

/// Decides both filters, writes the packet that shows a difference to OUT, and reports how that
/// ended.
#[inline(never)]
fn decide_and_report<'p, R: Screen, F: FileStore<'p>, O: PrintSink, E: HintSink>(
    decider: &Decider<'_, '_, R>,
    files: &mut F,
    words: &CompareWords<'p>,
    out: &mut O,
    err: &mut E,
) -> Status
    requires none_open { F.opened files.old ≡ [] }
    ensures pair { AnswersPair words.now.quiet words.now.json words.now.output decider.now.pair.now (O.contents out.old) (O.contents out.new) result }
    ensures decides { F.known ≡ true → DecidesPair (F.place files.old) (F.text files.old) (F.text files.new) (F.failed files.new) words.now decider.now.pair.now (λ says. TellsAmong E.takes_hints E.failed E.contents E.fault_form says err.old err.new) (O.contents out.old) (O.contents out.new) result }
    ensures others { F.known ≡ true → KeepsOthers (F.place files.old) (F.text files.old) (F.text files.new) words.now.output }
    ensures closed { F.known ≡ true → F.pending files.new ≡ F.pending files.old }
    ensures handed_on { O.waits out.old ≡ false → IsAnswerStatus result → O.waits out.new ≡ false }
{
    let answer = answer(decider, words, out);
    report_and_write(files, words, &answer, err)
}

/// Accepts both filters and compares the paths, decides the filters for every packet, and reports
/// how that ended.
#[inline(never)]
pub(crate) fn decide_files<
    'p,
    R: AllocGlobal + Screen,
    F: FileStore<'p>,
    O: PrintSink,
    E: HintSink,
>(rt: &R, files: &mut F, words: &CompareWords<'p>, out: &mut O, err: &mut E) -> Status
    requires none_open { F.opened files.old ≡ [] }
    ensures answers { F.known ≡ true → DecidesAnswer O.contents (F.place files.old) (F.text files.old) (F.text files.new) (F.printed files.old) (F.failed files.new) words.now (λ line says. TellsWith E.takes_hints E.failed E.contents E.fault_form line says err.old err.new) (λ says. TellsAmong E.takes_hints E.failed E.contents E.fault_form says err.old err.new) out.old out.new result }
    ensures others { F.known ≡ true → KeepsOthers (F.place files.old) (F.text files.old) (F.text files.new) words.now.output }
    ensures closed { F.known ≡ true → F.pending files.new ≡ F.pending files.old }
    ensures handed_on { O.waits out.old ≡ false → IsAnswerStatus result → O.waits out.new ≡ false }
{
    match accept_pair(rt.alloc(), files, words) {
        Ok(pair) => {
            let decider = Decider {
                alloc: rt.alloc(),
                pair: &pair,
                notice: Notice::new(rt, err.takes_hints()),
            };
            decide_and_report(&decider, files, words, out, err)
        }
        Err(reason) => report_uncompared(rt.alloc(), &reason, words, err),
    }
}
