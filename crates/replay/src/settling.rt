//! What is left once the threads of a task have ended.

ghost use Rattle.std.specs.Prelude.{◌≡◌, ◌↔◌, ◌⊎◌, List, [], ◌++◌, length, true, false, All, IfSome, None};
ghost use Rattle.handover.specs.Asks.{asks};
ghost use Rattle.handover.specs.Rule.{profile_of};
ghost use Rattle.listener.specs.LookingBack.{all_accepted};
ghost use Rattle.rtrb.specs.Ring.{known_items, received, sent, IsFinishedOf, IsPair};
ghost use Rattle.listener.specs.Laws.{joined};
ghost use Rattle.listener.specs.declared.message.Message.{Message};
ghost use Rattle.replay.specs.TaskStates.{IsDone};
ghost use Rattle.replay.specs.Leaving.{HasLeft};
ghost use Rattle.replay.specs.Reading.{messages_of};
ghost use Rattle.replay.specs.Reports.{IsReported};
ghost use Rattle.replay.specs.Rings.{ring_of};
ghost use Rattle.replay.specs.Writing.{IsTimely, Writes};
ghost use Rattle.replay.specs.declared.capture_output.OutputFile.{OutputFile};

use crate::capture_output::Written;
use crate::reading_thread::{ReaderEnd, ReaderStop};
use crate::states::{EndedFeeder, TaskDone};
use crate::task_link::TaskLink;
use crate::writer_thread::WriteEnd;
use handover::{BareSettled, Past, settle_bare};
use listener::{Buffer, Counts};
use replay_types::{ListenerReport, TaskEnd};
use rtrb::{Consumer, Finished, Producer};
use savefile::Sink;

/// How many buffers a writer thread left in its rings: of what was read, and of the rest.
#[derive(Clone, Copy)]
struct Left {
    read: usize,
    rest: usize,
}

/// Whether so much that is left can be written: the rest comes last, so what was read and the hold
/// can't come after it.
fn is_in_order(left: &Left, hold: &Buffer) -> bool
    ensures { result ≡ true → left.now.rest ≡ 0 → (left.now.read ≡ 0) × (hold.now.messages ≡ []) }
{
    left.rest != 0 || (left.read == 0 && hold.is_empty())
}

/// What is left in the rings of what was read and of the rest, where the end of the first was
/// handed over and it can be written.
fn left_in(
    full: &mut Consumer<Buffer>,
    finished: Option<Finished<Buffer>>,
    rest: &mut Consumer<Buffer>,
    mut rest_in: Producer<Buffer>,
    hold: &Buffer,
) -> Option<Left>
    requires full { IfSome finished (λ f. IsFinishedOf f full.old) }
    requires rest { IsPair rest_in rest.old }
    ensures popped { (received full.new ≡ received full.old) × (received rest.new ≡ received rest.old) }
    ensures full { IfSome result (λ left. HasLeft finished full.new left.read) }
    ensures rest { IfSome result (λ left. (received rest.new ++ known_items rest.new ≡ sent rest_in) × (left.rest ≡ length (known_items rest.new))) }
    ensures order { IfSome result (λ left. left.rest ≡ 0 → (left.read ≡ 0) × (hold.now.messages ≡ [])) }
{
    let Some(mut finished) = finished else {
        return None;
    };
    let left = Left {
        read: full.slots_after(&mut finished),
        rest: rest.slots_beside(&mut rest_in),
    };
    if is_in_order(&left, hold) {
        Some(left)
    } else {
        None
    }
}

/// Writes the buffers that are left in the ring.
fn write_left<W: Sink>(written: &mut Written<W>, ring: &mut Consumer<Buffer>, left: usize)
    requires { left ≡ length (known_items ring.old) }
    ensures { (output : OutputFile W) (messages : List Message) → Writes W.taken W.failures output messages written.old →
        Writes W.taken W.failures output (messages ++ joined (messages_of (known_items ring.old))) written.new }
{
    for _ in 0..left {
        written.put_all(&ring.pop_known());
    }
}

/// How a task ended, by why its reading stopped and whether its savefile works, of which this many
/// bytes were sent. A buffer of another capacity comes before a fault of the savefile, and that
/// before an end that was not handed over.
fn end_of(stop: ReaderStop, works: bool, sent: u64) -> TaskEnd
    ensures clean { result ≡ TaskEnd.Clean → (stop ≡ ReaderStop.Ended) × (works ≡ true) }
    ensures broke { (n : _) → result ≡ TaskEnd.Write n → (works ≡ false) × (n ≡ sent) }
    ensures unfinished { (result ≡ TaskEnd.Unfinished) ↔ ((stop ≡ ReaderStop.Foreign) ⊎ ((stop ≡ ReaderStop.Abandoned) × (works ≡ true))) }
{
    match stop {
        ReaderStop::Foreign => TaskEnd::Unfinished,
        _ if !works => TaskEnd::Write(sent),
        ReaderStop::Ended => TaskEnd::Clean,
        ReaderStop::Abandoned => TaskEnd::Unfinished,
    }
}

fn report<W: Sink>(
    written: Written<W>,
    counts: Counts,
    end: TaskEnd,
    past: Past,
) -> ListenerReport<W>
    ensures sink { (result.sink ≡ written.writer.sink) × (result.sent ≡ written.writer.sent) × (result.written ≡ written.count) }
    ensures counts { (result.received ≡ counts.received) × (result.matched ≡ counts.matched) × (result.dropped ≡ counts.dropped) }
    ensures end { result.end ≡ end }
    ensures past { result.past ≡ past }
{
    let Written {
        writer,
        count,
        works: _,
    } = written;
    let (sink, sent) = writer.close();
    ListenerReport {
        sink,
        sent,
        received: counts.received,
        matched: counts.matched,
        dropped: counts.dropped,
        written: count,
        end,
        past,
    }
}

/// Settles the two ends. What the writer thread left is written: buffers in the ring of what was
/// read, the hold, and the rest. If no thread broke off, it has left nothing. An end that was
/// not handed over comes before all that [`end_of`] returns.
pub(crate) fn settled<W: Sink + Drop>(
    link: TaskLink,
    ending: EndedFeeder,
    done: TaskDone<W>,
) -> ListenerReport<W>
    requires pair { (ending.feed.pair ≡ link) × (done.read.drain.pair ≡ link) }
    requires profile { ending.feed.profile ≡ profile_of done.task.value.capacity done.task.value.mode }
    requires ring { ring_of ending.rest_in.end ≡ ring_of done.write.rest.end }
    requires timely { All (λ m. IsTimely m.nanos) (all_accepted (asks ending.feed.feeds)) }
    requires done { IsDone W.taken W.failures done }
    ensures report { IsReported W.taken W.failures done.task.value ending.feed.feeds done.read.drain.takes result }
    ensures past { (result.past.pair ≡ done.read.drain.pair) × (result.past.feeds ≡ ending.feed.feeds) × (result.past.takes ≡ done.read.drain.takes)
        × (result.past.profile ≡ ending.feed.profile) }
    ensures handed_over { done.read.finished ≡ None → result.end ≡ TaskEnd.Unfinished }
{
    let EndedFeeder { feed, rest_in } = ending;
    let TaskDone {
        task: _,
        read,
        write,
    } = done;
    let ReaderEnd {
        drain,
        finished,
        stop,
    } = read;
    let WriteEnd {
        mut written,
        mut full,
        mut rest,
    } = write;
    let BareSettled { hold, counts, past } = settle_bare(link.into_pair(), feed, drain);
    let Some(left) = left_in(&mut full, finished, &mut rest, rest_in, &hold) else {
        return report(written, counts, TaskEnd::Unfinished, past);
    };
    // After a fault nothing more is written.
    write_left(&mut written, &mut full, left.read);
    written.put_all(&hold);
    write_left(&mut written, &mut rest, left.rest);
    written.flush();
    let end = end_of(stop, written.works, written.writer.sent());
    report(written, counts, end, past)
}
