//! Where a program goes on after each of its instructions.

use bpfvm::{Insn, code};

/// Where a program goes on after an instruction.
#[derive(Clone, Copy, Debug, PartialEq, Eq)]
pub(crate) enum Way {
    /// Nowhere: it returns.
    End,
    /// To the instruction at this place.
    To(usize),
    /// To the first place if its test holds, and else to the second.
    Test(usize, usize),
}

/// The place that a jump by a distance leads to.
fn target(place: usize, distance: usize) -> usize {
    place.saturating_add(1).saturating_add(distance)
}

/// The first place from this one on that is no jump without a test: all jumps lead on.
fn past_jumps(insns: &[Insn], place: usize) -> usize {
    let mut place = place;
    for _ in 0..insns.len() {
        match insns.get(place) {
            Some(insn) if insn.code == code::JA => place = target(place, insn.k as usize),
            _ => return place,
        }
    }
    place
}

/// Whether an instruction of this code is a jump with a test.
pub(crate) fn is_test(code: u16) -> bool {
    matches!(
        code,
        code::JEQ_K
            | code::JEQ_X
            | code::JGT_K
            | code::JGT_X
            | code::JGE_K
            | code::JGE_X
            | code::JSET_K
            | code::JSET_X
    )
}

/// Where a program goes on after the instruction at a place.
pub(crate) fn way_from(insns: &[Insn], place: usize) -> Way {
    let Some(insn) = insns.get(place) else {
        return Way::End;
    };
    if insn.code == code::RET_K || insn.code == code::RET_A {
        return Way::End;
    }
    if !is_test(insn.code) {
        return Way::To(past_jumps(insns, target(place, 0)));
    }
    let yes = past_jumps(insns, target(place, usize::from(insn.jt)));
    let no = past_jumps(insns, target(place, usize::from(insn.jf)));
    if yes == no {
        Way::To(yes)
    } else {
        Way::Test(yes, no)
    }
}

/// The place that a program begins at.
pub(crate) fn first_place(insns: &[Insn]) -> usize {
    past_jumps(insns, 0)
}
