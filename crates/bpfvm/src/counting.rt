//! How many instructions a run takes.

ghost use Rattle.std.specs.Prelude.{◌≡◌};
ghost use Rattle.bpfvm.specs.Traces.{TakesInstructions};

use crate::machine::{Next, Registers, step};
use crate::program::Program;

/// Returns how many instructions [`run`](crate::run) executes for a packet, the last one included:
/// as many as [`trace`](crate::trace) lists. It takes no memory.
pub fn count_instructions(program: &Program, packet: &[u8], wire: u32) -> usize
    ensures { TakesInstructions program.now packet.now wire result }
{
    let insns = program.insns();
    let mut registers = Registers {
        accumulator: 0,
        index: 0,
    };
    let mut memory = [0u32; 16];
    let mut place = 0;
    let mut count = 1;
    loop {
        let insn = &insns[place];
        match step(insn, &mut registers, &mut memory, packet, wire) {
            Next::On(passed) => {
                place += 1 + passed as usize;
                count += 1;
            }
            Next::End(_) => return count,
        }
    }
}
