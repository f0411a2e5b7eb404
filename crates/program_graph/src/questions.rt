//! What a box of the graph says.

use crate::held::{Held, Source};
use crate::ways::is_test;
use bpfvm::{Insn, code};
use frame_fields::Written;
use std::fmt;
use std::fmt::{Display, Formatter};

/// The field of IPv4 that says whether a packet is a fragment.
const FRAGMENT: &str = "flags and fragment offset";

/// The bits of the fragment offset.
const OFFSET_BITS: u32 = 0x1fff;

/// What the last instruction of a box asks or returns, and what the accumulator holds then.
#[derive(Clone, Copy)]
pub(crate) struct Question<'a> {
    pub insn: &'a Insn,
    pub held: Held,
}

/// The number or register that a jump compares with.
#[derive(Clone, Copy)]
struct Operand<'a>(Question<'a>);

impl Display for Operand<'_> {
    fn fmt<W: fmt::Write>(&self, f: &mut Formatter<W>) -> fmt::Result {
        let Question { insn, held } = self.0;
        match insn.code {
            code::JEQ_X | code::JGT_X | code::JGE_X | code::JSET_X => f.write_str("X"),
            _ => {
                let (number, notation) = (u64::from(insn.k), held.notation());
                write!(f, "{}", Written { number, notation })
            }
        }
    }
}

impl Question<'_> {
    /// The sign between what is held and what it is compared with.
    fn sign(&self) -> &'static str {
        match self.insn.code {
            code::JEQ_K | code::JEQ_X => "=",
            code::JGT_K | code::JGT_X => ">",
            _ => ">=",
        }
    }

    /// Whether it asks for bits.
    fn asks_bits(&self) -> bool {
        self.insn.code == code::JSET_K || self.insn.code == code::JSET_X
    }

    /// Whether it asks if a packet is a fragment other than the first.
    fn asks_fragment(&self) -> bool {
        self.insn.code == code::JSET_K && self.insn.k == OFFSET_BITS && self.held.is_field(FRAGMENT)
    }
}

/// `destination port = 443?`
impl Display for Question<'_> {
    fn fmt<W: fmt::Write>(&self, f: &mut Formatter<W>) -> fmt::Result {
        let (insn, held) = (self.insn, self.held);
        if insn.code == code::RET_A {
            f.write_str("return A")
        } else if insn.code == code::RET_K && insn.k == 0 {
            f.write_str("reject")
        } else if insn.code == code::RET_K {
            write!(f, "accept, at most {} bytes", insn.k)
        } else if self.asks_fragment() {
            f.write_str("later fragment?")
        } else if is_test(insn.code) && self.asks_bits() {
            write!(f, "{held} & {} != 0?", Operand(*self))
        } else if is_test(insn.code) {
            write!(f, "{held} {} {}?", self.sign(), Operand(*self))
        } else if held.source == Source::Calculated {
            f.write_str("calculate")
        } else {
            write!(f, "read {held}")
        }
    }
}
