//! How many packets a filter answered so.

ghost use Rattle.std.specs.Prelude.{◌≡◌, ◌<◌, ◌≤◌, ◌+◌, ◌^◌, ℕ, List, false, OnOk, string_bytes};
ghost use Rattle.line_text.specs.Sending.{Takes};
ghost use Rattle.cli_answers.specs.declared.form.PacketForm.{PacketForm};
ghost use Rattle.cli_answers.specs.Counts.{Fit, counted, counts_json, counts_text, line_of, no_counts, plus};

use crate::form::PacketForm;
use crate::printing::Unprinted;
use bpfvm::NoMemory;
use cli_watch::frames::FrameCounts;
use cli_watch::output::{PrintSink, send_last};
use filter_meaning::Verdict;

/// What is counted of the packets of captures, and printed after their lines.
pub trait PacketCounts: Copy {
    /// The counts of no packets.
    ghost none: { Self };

    /// Those of the packets of both.
    ghost sum: { Self → Self → Self };

    /// None of them is above this number of packets.
    ghost fit: { Self → ℕ → Type 0 };

    /// Their line in a form.
    ghost line_in: { PacketForm → Self → List ℕ };

    fn none() -> Self
        ensures is { result ≡ none }
        ensures fit { (n : ℕ) → fit result n };

    /// The counts of the packets of both, each up to 2^64 - 1.
    fn plus(self, other: Self) -> Self
        ensures { result ≡ sum self other };

    /// Puts their line in place of what the line has.
    fn put(self, form: PacketForm, line: &mut String) -> Result<(), NoMemory>
        ensures { OnOk result (string_bytes line.new ≡ line_in form self) };
}

/// How many packets a filter was asked, and how many of these it answered Yes, No and Abort; and
/// into how many frames no filter looks.
#[derive(Clone, Copy, Debug, PartialEq, Eq)]
pub struct VerdictCounts {
    pub packets: u64,
    pub yes: u64,
    pub no: u64,
    pub abort: u64,
    /// How many are IPv6 or have a VLAN tag.
    pub unseen: u64,
}

impl VerdictCounts {
    /// Of no packets.
    pub const NONE: VerdictCounts = VerdictCounts {
        packets: 0,
        yes: 0,
        no: 0,
        abort: 0,
        unseen: 0,
    };

    /// The counts of the packets of both, each up to 2^64 - 1.
    pub fn plus(self, other: VerdictCounts) -> VerdictCounts
        ensures { result ≡ plus self other }
    {
        VerdictCounts {
            packets: self.packets.saturating_add(other.packets),
            yes: self.yes.saturating_add(other.yes),
            no: self.no.saturating_add(other.no),
            abort: self.abort.saturating_add(other.abort),
            unseen: self.unseen.saturating_add(other.unseen),
        }
    }

    /// The frames, and into how many of them no filter looks.
    pub fn frames(self) -> FrameCounts
        ensures frames { result.frames ≡ self.packets }
        ensures unseen { result.unseen ≡ self.unseen }
    {
        FrameCounts {
            frames: self.packets,
            unseen: self.unseen,
        }
    }

    /// Counts one packet more, whose frame is unseen or not.
    pub fn count(&mut self, verdict: Verdict, is_unseen: bool)
        requires room { self.now.packets + 1 < 2 ^ 64 }
        requires yes { self.now.yes ≤ self.now.packets }
        requires no { self.now.no ≤ self.now.packets }
        requires abort { self.now.abort ≤ self.now.packets }
        requires unseen { self.now.unseen ≤ self.now.packets }
        ensures { self.new ≡ counted verdict is_unseen self.old }
    {
        if is_unseen {
            self.unseen += 1;
        }
        self.packets += 1;
        match verdict {
            Verdict::Yes => self.yes += 1,
            Verdict::No => self.no += 1,
            Verdict::Abort => self.abort += 1,
        }
    }
}

impl PacketCounts for VerdictCounts {
    ghost none = { no_counts };

    ghost sum = { plus };

    ghost fit = { Fit };

    ghost line_in = { line_of };

    fn none() -> VerdictCounts {
        VerdictCounts::NONE
    }

    fn plus(self, other: VerdictCounts) -> VerdictCounts {
        VerdictCounts::plus(self, other)
    }

    fn put(self, form: PacketForm, line: &mut String) -> Result<(), NoMemory> {
        match form {
            PacketForm::Text => put_counts_text(line, self),
            PacketForm::Json(_) => put_counts_object(line, self),
        }
    }
}

/// Prints the counts, and all that the writer has gathered; the line that it is put together in may
/// have any text.
pub fn print_counts<C: PacketCounts, O: PrintSink>(
    counts: C,
    form: PacketForm,
    line: &mut String,
    out: &mut O,
) -> Result<(), Unprinted>
    ensures taken { Takes (O.contents out.old) (O.contents out.new) result (C.line_in form counts) }
    ensures handed_on { OnOk result (O.waits out.new ≡ false) }
{
    counts.put(form, line)?;
    send_last(line.as_bytes(), out)?;
    Ok(())
}

#[tactic(auto, unfolding(crate::specs::Counts::counts_text))]
fn put_counts_text(line: &mut String, counts: VerdictCounts) -> Result<(), NoMemory>
    ensures { OnOk result (string_bytes line.new ≡ counts_text counts.packets counts.yes counts.no counts.abort) }
{
    line.clear();
    write!(line, "{} packets: {} Yes, ", counts.packets, counts.yes)?;
    write!(line, "{} No, {} Abort\n", counts.no, counts.abort)?;
    Ok(())
}

#[tactic(auto, unfolding(crate::specs::Counts::counts_json))]
fn put_counts_object(line: &mut String, counts: VerdictCounts) -> Result<(), NoMemory>
    ensures { OnOk result (string_bytes line.new ≡ counts_json counts.packets counts.yes counts.no counts.abort) }
{
    line.clear();
    write!(
        line,
        "{{\"packets\":{},\"yes\":{}",
        counts.packets, counts.yes
    )?;
    write!(line, ",\"no\":{},\"abort\":{}}}\n", counts.no, counts.abort)?;
    Ok(())
}
