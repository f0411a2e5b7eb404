//! Where a run ends, and why.

ghost use Rattle.std.specs.Prelude.{◌≡◌};
ghost use Rattle.bpfvm.specs.Codes.{Operation, operation_of};
ghost use Rattle.bpfvm.specs.Machine.{beginning};
ghost use Rattle.bpfvm.specs.Endings.{how_by, IsEnd, answer_of};
ghost use Rattle.std.specs.Prelude.{Some};

use crate::code;
use crate::insn::Insn;
use crate::program::Program;
use crate::running::last_of;

/// Why a run ended.
#[derive(Clone, Copy, Debug, PartialEq, Eq)]
pub enum How {
    /// A return answered this.
    Returned(u32),
    /// A load went past the captured bytes.
    NotCaptured,
    /// The divisor of a division or of a modulo was 0.
    ZeroDivisor,
}

/// The end of a run.
#[derive(Clone, Copy, Debug, PartialEq, Eq)]
pub struct End {
    /// The place of the last instruction that was executed, counted from 0.
    pub place: usize,
    pub how: How,
}

/// Why a run with this answer ended, by its last instruction.
fn how_by(insn: &Insn, answer: u32) -> How
    ensures { (operation : Operation) → operation_of insn.now.code ≡ Some operation → result ≡ how_by operation answer }
{
    match insn.code {
        code::RET_K => How::Returned(answer),
        code::RET_A => How::Returned(answer),
        code::DIV_X => How::ZeroDivisor,
        code::MOD_X => How::ZeroDivisor,
        _ => How::NotCaptured,
    }
}

/// Runs a program on a packet as [`run`](crate::run), and returns at which instruction the run
/// ended, and why. It takes no memory.
pub fn run_to_end(program: &Program, packet: &[u8], wire: u32) -> End
    ensures { IsEnd program.now packet.now wire result.place result.how }
{
    let insns = program.insns();
    let last = last_of(program, packet, wire);
    End {
        place: last.place,
        how: how_by(&insns[last.place], last.answer),
    }
}

impl End {
    /// The answer of the run.
    pub fn answer(self) -> u32
        ensures { result ≡ answer_of self.how }
    {
        match self.how {
            How::Returned(answer) => answer,
            How::NotCaptured | How::ZeroDivisor => 0,
        }
    }
}
