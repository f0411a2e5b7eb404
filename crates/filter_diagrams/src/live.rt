//! What a program reads again: the registers and cells that are live at each place.

use crate::actions::{Action, LoadSource, Operand, Register, action_of};
use bpfvm::Insn;
use filter_bdd::Stop;
use std::alloc::Global;

/// The registers and cells that some way from a place reads before it writes them.
#[derive(Clone, Copy, Debug, PartialEq, Eq)]
pub(crate) struct Live {
    pub accumulator: bool,
    pub index: bool,
    /// Bit N is cell N of the scratch memory.
    memory: u16,
}

/// The bit of a cell.
fn bit_of(cell: u32) -> u16 {
    1 << (cell % 16)
}

impl Live {
    /// Nothing is read.
    pub const NOTHING: Live = Live {
        accumulator: false,
        index: false,
        memory: 0,
    };

    /// Whether a cell is read.
    pub fn has_cell(self, cell: u32) -> bool {
        self.memory & bit_of(cell) > 0
    }

    /// What is read on one way or the other.
    fn or(self, other: Live) -> Live {
        Live {
            accumulator: self.accumulator || other.accumulator,
            index: self.index || other.index,
            memory: self.memory | other.memory,
        }
    }

    /// A register is read, or is not before it is written.
    fn with_register(self, register: Register, read: bool) -> Live {
        match register {
            Register::Accumulator => Live {
                accumulator: read,
                index: self.index,
                memory: self.memory,
            },
            Register::Index => Live {
                accumulator: self.accumulator,
                index: read,
                memory: self.memory,
            },
        }
    }

    /// An operand is read.
    fn with_operand(self, operand: Operand) -> Live {
        match operand {
            Operand::Constant => self,
            Operand::InIndex => self.with_register(Register::Index, true),
        }
    }

    /// What a load reads is read.
    fn with_source(self, source: LoadSource, cell: u32) -> Live {
        match source {
            LoadSource::Absolute(_)
            | LoadSource::Immediate
            | LoadSource::Length
            | LoadSource::HeaderLength => self,
            LoadSource::Indirect(_) => self.with_register(Register::Index, true),
            LoadSource::Memory => Live {
                accumulator: self.accumulator,
                index: self.index,
                memory: self.memory | bit_of(cell),
            },
            LoadSource::Calculated(_, operand) => {
                self.with_register(Register::Accumulator, true)
                    .with_operand(operand)
            }
            LoadSource::Negated => self.with_register(Register::Accumulator, true),
            LoadSource::Register(from) => self.with_register(from, true),
        }
    }

    /// What is read from an instruction on, by what is read after it.
    fn before(self, action: Action, cell: u32) -> Live {
        match action {
            Action::Load(to, source) => self.with_register(to, false).with_source(source, cell),
            Action::Store(from) => {
                let rest = Live {
                    accumulator: self.accumulator,
                    index: self.index,
                    memory: self.memory & !bit_of(cell),
                };
                rest.with_register(from, true)
            }
            Action::Jump => self,
            Action::Branch(_, operand) => {
                self.with_register(Register::Accumulator, true)
                    .with_operand(operand)
            }
            Action::ReturnConstant => Live::NOTHING,
            Action::ReturnAccumulator => Live::NOTHING.with_register(Register::Accumulator, true),
        }
    }
}

/// What is read after an instruction at a place, by what is read from the later places on.
fn live_after(live: &[Live], place: usize, insn: &Insn, action: Action) -> Live {
    let next = place.saturating_add(1);
    let at = |place: usize| live.get(place).copied().unwrap_or(Live::NOTHING);
    match action {
        Action::Jump => at(next.saturating_add(insn.k as usize)),
        Action::Branch(_, _) => {
            at(next.saturating_add(usize::from(insn.jt))).or(at(next.saturating_add(usize::from(
                insn.jf,
            ))))
        }
        _ => at(next),
    }
}

/// What is read from each place of a program on. Jumps only go forward, so the last place comes
/// first.
pub(crate) fn live_of(alloc: Global, insns: &[Insn]) -> Result<Vec<Live>, Stop> {
    let Ok(mut live) = vec![in alloc; Live::NOTHING; insns.len()] else {
        return Err(Stop::Memory);
    };
    for (place, insn) in insns.iter().enumerate().rev() {
        if let Some(action) = action_of(insn.code) {
            let after = live_after(&live, place, insn, action);
            if let Some(entry) = live.get_mut(place) {
                *entry = after.before(action, insn.k);
            }
        }
    }
    Ok(live)
}
