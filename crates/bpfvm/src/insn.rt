//! Instructions.

/// One instruction of a filter program, `struct bpf_insn` of bpf(4).
#[derive(Clone, Copy, Debug, Default, PartialEq, Eq)]
pub struct Insn {
    /// What it does: one of the codes of [`crate::code`].
    pub code: u16,
    /// How many instructions a conditional jump passes if its test holds.
    pub jt: u8,
    /// How many instructions it passes if its test fails.
    pub jf: u8,
    /// The operand: a number, an offset, a cell of the scratch memory, a jump's length, or the
    /// answer of a return.
    pub k: u32,
}
