//! Where the run of a program over a packet ends.

ghost use Rattle.std.specs.Prelude.{◌≡◌};
ghost use Rattle.cli_answers.specs.Answers.{ended_as, IsEndOfRun};

use bpfvm::{Insn, Program, code, run_to_end};
use filter_meaning::Verdict;
use savefile::PacketRef;

/// What an answer of a program counts as whose run ended with this instruction: a run that no
/// return ended is an Abort.
pub fn ended_as(insn: &Insn, answer: u32) -> Verdict
    ensures { result ≡ ended_as insn.now answer }
{
    if insn.code != code::RET_K && insn.code != code::RET_A {
        Verdict::Abort
    } else if answer == 0 {
        Verdict::No
    } else {
        Verdict::Yes
    }
}

/// Where the run of a program over a packet ended, and the number that it answered.
#[derive(Clone, Copy)]
pub struct RunEnd {
    pub number: u32,
    pub place: usize,
    pub insn: Insn,
}

/// Where the run of a program over a packet ends.
pub fn end_of_run(program: &Program, packet: &PacketRef<'_>) -> RunEnd
    ensures { IsEndOfRun program.now packet.now result.number result.place result.insn }
{
    let insns = program.insns();
    let end = run_to_end(program, packet.bytes, packet.len);
    RunEnd {
        number: end.answer(),
        place: end.place,
        insn: insns[end.place],
    }
}
