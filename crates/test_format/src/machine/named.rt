//! Instructions by their names. That each line of a program is what libpcap prints is tested of the
//! program.

use crate::same::same;
use bpfvm::{Brief, Insn, PlacedInsn};
use std::process::Abort;

/// Fields of an instruction, its text, and that with one space in it.
type Row = (u16, u8, u8, u32, &'static str, &'static str);

static ROWS: [Row; 12] = [
    (0x28, 0, 0, 12, "ldh      [12]", "ldh [12]"),
    (0x50, 0, 0, 4, "ldb      [x + 4]", "ldb [x + 4]"),
    (0xb1, 0, 0, 14, "ldxb     4*([14]&0xf)", "ldxb 4*([14]&0xf)"),
    (0x81, 0, 0, 0, "ldx      #pktlen", "ldx #pktlen"),
    (0x03, 0, 0, 15, "stx      M[15]", "stx M[15]"),
    (0x04, 0, 0, u32::MAX, "add      #-1", "add #-1"),
    (0x05, 0, 0, 3, "ja       3", "ja 3"),
    (
        0x45,
        0,
        5,
        0x1fff,
        "jset     #0x1fff          jt 0\tjf 5",
        "jset #0x1fff",
    ),
    (
        0x1d,
        1,
        2,
        0,
        "jeq      x                jt 1\tjf 2",
        "jeq x",
    ),
    (0x06, 0, 0, 262_144, "ret      #262144", "ret #262144"),
    (0x16, 0, 0, 0, "ret      ", "ret"),
    (0xffff, 0, 0, 0, "unimp    0xffff", "unimp 0xffff"),
];

/// An instruction is printed so.
fn is_printed(rt: &(impl Abort + AllocGlobal), row: &Row) {
    let (code, jt, jf, k, text, brief) = *row;
    let insn = Insn { code, jt, jf, k };
    let printed = format!(in rt.alloc(); "{insn}|{}", Brief(&insn)).expect(rt, "memory");
    let wanted = format!(in rt.alloc(); "{text}|{brief}").expect(rt, "memory");
    same(rt, printed.as_str(), wanted.as_str());
}

#[test]
fn an_instruction_has_its_name(rt: HostRuntime) {
    for row in ROWS.iter() {
        is_printed(&rt, row);
    }
}

#[test]
fn a_jump_has_the_places_that_it_leads_to(rt: HostRuntime) {
    let insn = Insn {
        code: 0x15,
        jt: 1,
        jf: 2,
        k: 0x800,
    };
    let placed = PlacedInsn {
        place: 7,
        insn: &insn,
    };
    let line = format!(in rt.alloc(); "{placed}").expect(&rt, "memory");
    same(
        &rt,
        line.as_str(),
        "(007) jeq      #0x800           jt 9\tjf 10",
    );
}
