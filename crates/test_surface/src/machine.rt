//! The machine: programs and what is wrong with them, what they answer, and listings.
use crate::common::{UDP, joined, listed, same};
use bpfvm::{Insn, Invalid, ListingFault, Program, read_listing, run, write_listing};

#[test]
fn a_program_has_from_one_to_512_instructions(rt: HostRuntime) {
    same(&rt, Program::new(&[]).err(), Some(Invalid::Empty));
    let (jt, jf) = (0, 0);
    let rows = [
        (510, 510, Ok((7, 512))),
        (511, 510, Err(Invalid::JumpOut(0))),
        (510, 511, Err(Invalid::TooMany)),
    ];
    // A jump over so many instructions, so many loads and a return of 7.
    for (k, loads, want) in rows {
        let mut insns = Vec::new(rt.alloc());
        insns
            .push(Insn { code: 5, jt, jf, k })
            .expect(&rt, "memory");
        for k in 0..loads {
            insns
                .push(Insn { code: 0, jt, jf, k })
                .expect(&rt, "memory");
        }
        let (code, k) = (6, 7);
        insns.push(Insn { code, jt, jf, k }).expect(&rt, "memory");
        let found = match Program::new(insns.as_slice()) {
            Ok(program) => Ok((run(&program, &[], 0), program.insns().len())),
            Err(invalid) => Err(invalid),
        };
        same(&rt, found, want);
    }
}

#[test]
fn loads_and_cells_answer_as_the_table_says(rt: HostRuntime) {
    let packet = joined(&rt, &[UDP]);
    let rows = [
        ("2\n32 0 0 26\n22 0 0 0", 167_772_161),
        ("2\n32 0 0 34\n22 0 0 0", 3_473_461),
        ("2\n32 0 0 35\n22 0 0 0", 0),
        ("2\n40 0 0 12\n22 0 0 0", 2_048),
        ("2\n40 0 0 37\n6 0 0 9", 0),
        ("2\n48 0 0 23\n22 0 0 0", 17),
        ("2\n48 0 0 37\n22 0 0 0", 53),
        ("2\n48 0 0 38\n6 0 0 9", 0),
        ("3\n1 0 0 26\n64 0 0 4\n22 0 0 0", 167_772_162),
        ("3\n1 0 0 34\n72 0 0 2\n22 0 0 0", 53),
        ("3\n1 0 0 20\n80 0 0 3\n22 0 0 0", 17),
        ("3\n1 0 0 4294967295\n80 0 0 1\n22 0 0 0", 0),
        ("3\n177 0 0 14\n135 0 0 0\n22 0 0 0", 20),
        ("2\n128 0 0 0\n22 0 0 0", 1_500),
        ("3\n129 0 0 0\n135 0 0 0\n22 0 0 0", 1_500),
        ("5\n0 0 0 5\n2 0 0 3\n97 0 0 3\n135 0 0 0\n22 0 0 0", 5),
        ("4\n1 0 0 6\n3 0 0 0\n96 0 0 0\n22 0 0 0", 6),
        ("5\n0 0 0 9\n2 0 0 15\n0 0 0 0\n96 0 0 15\n22 0 0 0", 9),
        ("5\n0 0 0 5\n7 0 0 0\n0 0 0 0\n135 0 0 0\n22 0 0 0", 5),
        ("2\n135 0 0 0\n22 0 0 0", 0),
        ("2\n96 0 0 7\n22 0 0 0", 0),
        ("1\n6 0 0 4294967295", u32::MAX),
    ];
    for (text, want) in rows {
        let program = listed(&rt, text);
        let found = run(&program, packet.as_slice(), 1_500);
        same(&rt, (text, found), (text, want));
    }
}

#[test]
fn arithmetic_and_jumps_answer_as_the_table_says(rt: HostRuntime) {
    // A is the first number and X the second; then comes the instruction.
    let rows = [
        ("4294967295", "0", "4 0 0 2", 1),
        ("5", "3", "12 0 0 0", 8),
        ("5", "3", "20 0 0 7", 4_294_967_294),
        ("5", "3", "28 0 0 0", 2),
        ("65536", "3", "36 0 0 65537", 65_536),
        ("5", "3", "44 0 0 0", 15),
        ("17", "3", "52 0 0 5", 3),
        ("17", "3", "60 0 0 0", 5),
        ("17", "0", "60 0 0 0", 0),
        ("12", "3", "68 0 0 10", 14),
        ("5", "3", "76 0 0 0", 7),
        ("12", "3", "84 0 0 10", 8),
        ("5", "3", "92 0 0 0", 1),
        ("1", "3", "100 0 0 31", 2_147_483_648),
        ("1", "3", "100 0 0 32", 0),
        ("5", "3", "108 0 0 0", 40),
        ("1", "32", "108 0 0 0", 0),
        ("4294967295", "3", "116 0 0 28", 15),
        ("4294967295", "3", "116 0 0 32", 0),
        ("40", "3", "124 0 0 0", 5),
        ("40", "33", "124 0 0 0", 0),
        ("1", "3", "132 0 0 0", 4_294_967_295),
        ("17", "3", "148 0 0 5", 2),
        ("17", "3", "156 0 0 0", 2),
        ("7", "0", "156 0 0 0", 0),
        ("12", "3", "164 0 0 10", 6),
        ("5", "3", "172 0 0 0", 6),
        // A jump that is taken answers A, else 7.
        ("5", "5", "21 0 1 5", 5),
        ("5", "5", "21 0 1 4", 7),
        ("5", "5", "29 0 1 4", 5),
        ("5", "5", "37 0 1 5", 7),
        ("5", "5", "37 0 1 4", 5),
        ("5", "5", "45 0 1 4", 7),
        ("5", "5", "53 0 1 5", 5),
        ("5", "5", "53 0 1 6", 7),
        ("5", "5", "61 0 1 6", 5),
        ("5", "5", "69 0 1 2", 7),
        ("5", "5", "69 0 1 6", 5),
        ("5", "5", "77 0 1 2", 5),
        ("5", "5", "5 0 1 0", 5),
        ("5", "5", "5 0 0 1", 7),
    ];
    for (a, x, line, want) in rows {
        let text = format!(in rt.alloc(); "5\n0 0 0 {a}\n1 0 0 {x}\n{line}\n22 0 0 0\n6 0 0 7\n");
        let program = listed(&rt, text.expect(&rt, "memory").as_str());
        same(&rt, (line, run(&program, &[], 0)), (line, want));
    }
}

#[test]
fn the_first_fault_of_a_listing_is_named(rt: HostRuntime) {
    let rows = [
        ("", ListingFault::BadLine(1)),
        ("\n", ListingFault::BadLine(1)),
        ("2\n6 0 0 1", ListingFault::Count),
        ("1\n6 0 0 1\n6 0 0 1\n", ListingFault::Count),
        ("1\n6 0 0 4294967296", ListingFault::BadLine(2)),
        ("1\n65536 0 0 0", ListingFault::BadLine(2)),
        ("1\n6 256 0 0", ListingFault::BadLine(2)),
        ("1\n6  0 0 0", ListingFault::BadLine(2)),
        ("1\n6 0 0", ListingFault::BadLine(2)),
        ("1\n6 0 0 0 ", ListingFault::BadLine(2)),
        ("1\n6 0 0 0\r\n", ListingFault::BadLine(2)),
        ("9\n6 0 0 0\n\n6 0 0 0", ListingFault::BadLine(3)),
        ("4294967296\n6 0 0 0", ListingFault::BadLine(1)),
        ("0", ListingFault::Program(Invalid::Empty)),
        ("1\n0 0 0 1", ListingFault::Program(Invalid::NoReturn)),
        (
            "3\n1 0 0 1\n8 0 0 0\n6 0 0 0",
            ListingFault::Program(Invalid::UnknownCode(1)),
        ),
        (
            "2\n14 0 0 0\n6 0 0 0",
            ListingFault::Program(Invalid::UnknownCode(0)),
        ),
        (
            "3\n40 0 0 12\n21 0 1 2048\n6 0 0 1\n",
            ListingFault::Program(Invalid::JumpOut(1)),
        ),
        (
            "3\n21 2 0 0\n6 0 0 0\n6 0 0 0\n",
            ListingFault::Program(Invalid::JumpOut(0)),
        ),
        (
            "3\n5 0 0 2\n6 0 0 0\n6 0 0 0\n",
            ListingFault::Program(Invalid::JumpOut(0)),
        ),
        (
            "2\n96 0 0 16\n6 0 0 0",
            ListingFault::Program(Invalid::Cell(0)),
        ),
        (
            "3\n97 0 0 15\n3 0 0 16\n6 0 0 0",
            ListingFault::Program(Invalid::Cell(1)),
        ),
        (
            "2\n52 0 0 0\n6 0 0 0",
            ListingFault::Program(Invalid::ZeroDivisor(0)),
        ),
        (
            "2\n148 0 0 0\n6 0 0 0",
            ListingFault::Program(Invalid::ZeroDivisor(0)),
        ),
        (
            "3\n2 0 0 99\n52 0 0 0\n0 0 0 1",
            ListingFault::Program(Invalid::Cell(0)),
        ),
    ];
    for (text, want) in rows {
        let found = read_listing(text.as_bytes()).err();
        same(&rt, (text, found), (text, Some(want)));
    }
}

#[test]
fn a_listing_is_written_without_leading_zeros(rt: HostRuntime) {
    let rows = [
        ("01\n06 0 0 007", "1\n6 0 0 7\n"),
        (
            "4\n40 0 0 12\n21 0 1 2048\n6 0 0 262144\n6 0 0 0\n",
            "4\n40 0 0 12\n21 0 1 2048\n6 0 0 262144\n6 0 0 0\n",
        ),
        ("1\n6 255 010 4294967295", "1\n6 255 10 4294967295\n"),
    ];
    for (text, want) in rows {
        let written = write_listing(rt.alloc(), &listed(&rt, text)).expect(&rt, "memory");
        same(&rt, written.as_slice(), want.as_bytes());
    }
}
