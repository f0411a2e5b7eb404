//! Two filters decided for every packet: the function under `bpftap compare` without a capture.

ghost use Rattle.std.specs.Prelude.{◌≡◌, ◌++◌, ℕ, List, Ok, IfOk, IfErr, OnOk, MatchOption, None, Some, false, string_bytes};
ghost use Rattle.filter_same.specs.Filters.{filter_accepts, filter_test};
ghost use Rattle.cli_compare.specs.Deciding.{AreLines, HoldsOfPair, IsText, IsUnanswered, PrintsAnswer, PutsDetail, PutsWitness, answer_line, asked_accepts, asked_test, cause_text, dump_of, lengths_text, packet_of_witness, witness_of};

use crate::notice::Notice;
use crate::object::object_of;
use crate::pair::FilterPair;
use bpfvm::NoMemory;
use cli_answers::AskedFilter;
use cli_answers::dump::put_dump;
use cli_answers::line::put_answer;
use cli_answers::printing::Unprinted;
use cli_watch::Screen;
use cli_watch::output::{PrintSink, send_last};
use filter_same::{Cause, Filter, Sameness, Witness, decide_filters};
use line_text::LineForm;
use savefile::PacketRef;
use std::alloc::{AllocError, Global};

/// How many nodes the diagrams of two filters may have, for each length of the IPv4 header, and half of the steps that are taken in all.
pub const BUDGET: usize = 2_000_000;

/// Appends why two filters are not decided.
pub(crate) fn put_cause(text: &mut String, budget: usize, cause: Cause) -> Result<(), AllocError>
    ensures { OnOk result (string_bytes text.new ≡ string_bytes text.old ++ cause_text budget cause) }
{
    match cause {
        Cause::Graphs => text.push_str("no packet was found that shows a difference"),
        Cause::Nodes => write!(text, "it takes more than {budget} nodes"),
        Cause::Steps => text.push_str("it takes too many steps"),
        Cause::Product => text.push_str("too large, with a product of two fields"),
        Cause::Quotient => text.push_str("too large, with a division by a field"),
        Cause::Load => text.push_str("too large, with bytes at an offset that is calculated"),
        Cause::Far => text.push_str("a byte at offset 131072 or later may be looked at"),
        Cause::Places => text.push_str("a program is walked at too many places"),
        Cause::Levels => text.push_str("an expression has too many levels"),
    }
}

/// Appends the line of what is not decided.
fn put_undecided(text: &mut String, budget: usize, cause: Cause) -> Result<(), AllocError>
    ensures { OnOk result (string_bytes text.new ≡ string_bytes text.old ++ answer_line budget (Sameness.NotDecided cause)) }
{
    text.push_str("not decided: ")?;
    put_cause(text, budget, cause)?;
    text.push_str("\n")
}

/// A filter as it is decided.
fn filter_of(filter: &AskedFilter) -> Filter<'_>
    ensures accepts { filter_accepts result ≡ asked_accepts filter.now }
    ensures test { filter_test result ≡ asked_test filter.now }
{
    match filter {
        AskedFilter::Expression(expr) => Filter::Expression(expr),
        AskedFilter::Program(program) => Filter::Program(program),
    }
}

/// A witness as a packet, at time 0.
pub(crate) fn packet_of_witness(witness: &Witness) -> PacketRef<'_>
    ensures { result ≡ packet_of_witness witness.now }
{
    PacketRef {
        sec: 0,
        nanos: 0,
        len: witness.wire,
        bytes: witness.bytes.as_slice(),
    }
}

/// Appends the lengths of a witness.
fn put_lengths(text: &mut String, witness: &Witness) -> Result<(), AllocError>
    ensures { OnOk result (string_bytes text.new ≡ string_bytes text.old ++ lengths_text witness.now) }
{
    let captured = witness.bytes.len();
    write!(text, "len {} captured {captured} first ", witness.wire)
}

/// Appends what both filters answer to a witness, and why.
fn put_witness(text: &mut String, pair: &FilterPair, witness: &Witness) -> Result<(), NoMemory>
    ensures { OnOk result (PutsWitness pair.now witness.now (string_bytes text.old) (string_bytes text.new)) }
{
    let packet = packet_of_witness(witness);
    put_lengths(text, witness)?;
    put_answer(text, &pair.first, &packet)?;
    text.push_str(" second ")?;
    put_answer(text, &pair.second, &packet)?;
    text.push_str("\n")?;
    Ok(())
}

/// Appends the line that says which answer it is.
fn put_answer_line(text: &mut String, budget: usize, sameness: &Sameness) -> Result<(), AllocError>
    ensures { OnOk result (string_bytes text.new ≡ string_bytes text.old ++ answer_line budget sameness.now) }
{
    match sameness {
        Sameness::Same => text.push_str("same\n"),
        Sameness::SameAsCaptured => text.push_str("same as captured\n"),
        Sameness::Short(_) => text.push_str("differ only where one aborts\n"),
        Sameness::Differ(_) => text.push_str("differ\n"),
        Sameness::NotDecided(cause) => put_undecided(text, budget, *cause),
    }
}

/// Appends the line of the witness, if the answer has one.
fn put_detail(text: &mut String, pair: &FilterPair, sameness: &Sameness) -> Result<(), NoMemory>
    ensures { OnOk result (PutsDetail pair.now sameness.now (string_bytes text.old) (string_bytes text.new)) }
{
    match sameness {
        Sameness::Short(witness) => put_witness(text, pair, witness),
        Sameness::Differ(witness) => put_witness(text, pair, witness),
        Sameness::Same | Sameness::SameAsCaptured | Sameness::NotDecided(_) => Ok(()),
    }
}

/// The packet that shows a difference, if the answer has one.
pub fn witness_of(sameness: &Sameness) -> Option<&Witness>
    ensures { MatchOption result (witness_of sameness.now ≡ None) (λ w. witness_of sameness.now ≡ Some w.now) }
{
    match sameness {
        Sameness::Short(witness) | Sameness::Differ(witness) => Some(witness),
        _ => None,
    }
}

/// The bytes of a witness as `tcpdump -XX` prints them; nothing if the answer has none.
fn dump_of(alloc: Global, sameness: &Sameness) -> Result<String, NoMemory>
    ensures { IfOk result (λ text. string_bytes text ≡ dump_of (witness_of sameness.now)) }
{
    let mut text = String::new(alloc);
    if let Some(witness) = witness_of(sameness) {
        put_dump(&mut text, &[], witness.bytes.as_slice())?;
    }
    Ok(text)
}

/// The lines for an answer.
fn lines_of(
    alloc: Global,
    pair: &FilterPair,
    budget: usize,
    sameness: &Sameness,
) -> Result<String, NoMemory>
    ensures { IfOk result (λ text. AreLines pair.now budget sameness.now (string_bytes text)) }
{
    let mut text = String::new(alloc);
    put_answer_line(&mut text, budget, sameness)?;
    put_detail(&mut text, pair, sameness)?;
    let dump = dump_of(alloc, sameness)?;
    text.push_str(dump.as_str())?;
    Ok(text)
}

/// All that is printed in a form if this is the answer.
fn text_of(
    alloc: Global,
    form: LineForm,
    pair: &FilterPair,
    budget: usize,
    sameness: &Sameness,
) -> Result<String, NoMemory>
    ensures { IfOk result (λ text. IsText form pair.now budget sameness.now (string_bytes text)) }
{
    match form {
        LineForm::Text => lines_of(alloc, pair, budget, sameness),
        LineForm::Json => object_of(alloc, pair, budget, sameness),
    }
}

/// What decides two filters for every packet.
#[derive(Drop)]
pub struct Decider<'p, 'r, R> {
    pub alloc: Global,
    pub pair: &'p FilterPair,
    /// It is shown meanwhile.
    pub notice: Notice<'r, R>,
}

/// Decides whether two filters accept the same packets, as [`decide_filters`] does, and meanwhile shows that it does.
#[inline(never)]
pub fn decide_pair<R: Screen>(
    decider: &Decider<'_, '_, R>,
    budget: usize,
) -> Result<Sameness, NoMemory>
    ensures { IfOk result (HoldsOfPair decider.now.pair.now) }
{
    decider.notice.put();
    let decided = decide_filters(
        decider.alloc,
        filter_of(&decider.pair.first),
        filter_of(&decider.pair.second),
        budget,
    );
    decider.notice.erase();
    decided
}

/// Decides whether two filters accept the same packets, as [`decide_filters`] does, and prints the answer: `same`, `same as captured`,
/// `differ only where one aborts`, `differ`, or `not decided: ` and the cause. If a packet shows a difference, a line with its
/// lengths and what each filter answers to it and why comes next, and then its bytes, as `tcpdump -XX` prints them. In JSON an object has the
/// same, with the bytes in hexadecimal.
///
/// `Unprinted::NoMemory`: nothing was printed. `Unprinted::Output`: the writer failed, and took a prefix of the text.
#[tactic(auto, using(crate::proofs::Witnesses::unanswered))]
pub fn print_sameness<R: Screen, O: PrintSink>(
    decider: &Decider<'_, '_, R>,
    form: LineForm,
    budget: usize,
    out: &mut O,
) -> Result<Sameness, Unprinted>
    ensures holds { IfOk result (HoldsOfPair decider.now.pair.now) }
    ensures printed { IfOk result (λ s. PrintsAnswer form decider.now.pair.now budget s (O.contents out.old) (O.contents out.new)) }
    ensures fault { IfErr result (λ e. IsUnanswered form decider.now.pair.now budget (O.contents out.old) (O.contents out.new) e) }
    ensures handed_on { OnOk result (O.waits out.new ≡ false) }
{
    let sameness = decide_pair(decider, budget)?;
    let text = text_of(decider.alloc, form, decider.pair, budget, &sameness)?;
    send_last(text.as_bytes(), out)?;
    Ok(sameness)
}
