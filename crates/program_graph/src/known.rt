//! What is known when a program reaches each of its instructions. All jumps lead on, so one pass
//! finds it.

use crate::held::{Held, held_after};
use crate::ways::{Way, first_place, way_from};
use bpfvm::{Insn, NoMemory, code};
use std::alloc::Global;

/// The field whose number is the type of what follows the header of Ethernet.
const ETHERTYPE: &str = "ethertype";

/// The field whose number is the protocol of what follows the header of IPv4.
const PROTOCOL: &str = "protocol";

const TYPE_ARP: u16 = 0x0806;

const TYPE_RARP: u16 = 0x8035;

/// What is known when a program reaches an instruction.
#[derive(Clone, Copy, Debug, PartialEq, Eq)]
pub(crate) struct Known {
    pub held: Held,
    pub ethertype: Option<u16>,
    pub protocol: Option<u8>,
    /// Whether a box begins here: it is the first instruction, or a jump leads here, or more than
    /// one way.
    pub begins: bool,
}

/// A type of which both are: ARP and RARP have the same fields.
fn common_type(one: Option<u16>, other: Option<u16>) -> Option<u16> {
    match (one, other) {
        (Some(TYPE_ARP | TYPE_RARP), Some(TYPE_ARP | TYPE_RARP)) => Some(TYPE_ARP),
        _ if one == other => one,
        _ => None,
    }
}

impl Known {
    const START: Known = Known {
        held: Held::CALCULATED,
        ethertype: None,
        protocol: None,
        begins: true,
    };

    /// After an instruction.
    pub(crate) fn after(self, insn: &Insn) -> Known {
        Known {
            held: held_after(self.held, insn, self.ethertype, self.protocol),
            begins: false,
            ..self
        }
    }

    /// Where the test of a jump holds.
    fn where_true(self, insn: &Insn) -> Known {
        if insn.code != code::JEQ_K {
            self
        } else if self.held.is_field(ETHERTYPE) {
            Known {
                ethertype: u16::try_from(insn.k).ok(),
                ..self
            }
        } else if self.held.is_field(PROTOCOL) {
            Known {
                protocol: u8::try_from(insn.k).ok(),
                ..self
            }
        } else {
            self
        }
    }

    /// Where two ways meet.
    fn meet(self, other: Known) -> Known {
        Known {
            held: if self.held == other.held {
                self.held
            } else {
                Held::CALCULATED
            },
            ethertype: common_type(self.ethertype, other.ethertype),
            protocol: if self.protocol == other.protocol {
                self.protocol
            } else {
                None
            },
            begins: true,
        }
    }
}

/// Notes that a way leads to a place.
fn note(entries: &mut [Option<Known>], place: usize, known: Known) {
    if let Some(entry) = entries.get_mut(place) {
        *entry = Some(match *entry {
            Some(earlier) => earlier.meet(known),
            None => known,
        });
    }
}

/// Notes what is known after the instruction at a place, which something is known of.
fn pass(entries: &mut [Option<Known>], insns: &[Insn], place: usize) {
    let (Some(Some(known)), Some(insn)) = (entries.get(place).copied(), insns.get(place)) else {
        return;
    };
    let after = known.after(insn);
    let begun = Known {
        begins: true,
        ..after
    };
    match way_from(insns, place) {
        Way::End => {}
        Way::To(next) => {
            let is_next = next == place.saturating_add(1);
            note(entries, next, if is_next { after } else { begun });
        }
        Way::Test(yes, no) => {
            note(entries, yes, begun.where_true(insn));
            note(entries, no, begun);
        }
    }
}

/// What is known at each place of a program; nothing at one that no way leads to.
pub(crate) fn known_places(alloc: Global, insns: &[Insn]) -> Result<Vec<Option<Known>>, NoMemory> {
    let mut entries = Vec::with_capacity(alloc, insns.len())?;
    for _ in insns {
        entries.push(None)?;
    }
    note(entries.as_mut_slice(), first_place(insns), Known::START);
    for place in 0..insns.len() {
        pass(entries.as_mut_slice(), insns, place);
    }
    Ok(entries)
}
