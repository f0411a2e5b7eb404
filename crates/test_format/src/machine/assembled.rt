//! Programs by the names of their instructions, as the page of Linux's bpf_asm has its first one.
//! What `check -f` prints is tested of the program.

use crate::same::same;
use bpf_asm::{
    AssemblyFault, Cause, MAX_TEXT, ProgramTextFault, is_assembly, read_assembly, read_program,
    write_array,
};
use bpfvm::{Invalid, ListingFault, write_listing};
use std::process::Abort;

/// The ARP packets, as a person writes it.
const ARP: &str = "ldh [12]\njne #0x806, drop\nret #-1\ndrop: ret #0\n";

/// As `tcpdump -d` prints it.
const IMAGE: &str =
    "(000) ldh      [12]\n(001) jeq      #0x806           jt 2\tjf 3\n(002) ret      #-1\n(003) ret      #0\n";

/// As `tcpdump -ddd` prints it.
const LISTING: &str = "4\n40 0 0 12\n21 0 1 2054\n6 0 0 4294967295\n6 0 0 0\n";

/// As `tcpdump -dd` prints it.
const ARRAY: &str =
    "{ 0x28, 0, 0, 0x0000000c },\n{ 0x15, 0, 1, 0x00000806 },\n{ 0x6, 0, 0, 0xffffffff },\n{ 0x6, 0, 0, 0x00000000 },\n";

#[test]
fn one_program_in_four_notations(rt: HostRuntime) {
    for text in [ARP, IMAGE, LISTING].iter() {
        let program = read_program(rt.alloc(), text.as_bytes()).expect(&rt, "a program");
        let listing = write_listing(rt.alloc(), &program).expect(&rt, "memory");
        assert!(rt; listing.as_slice() == LISTING.as_bytes());
        let array = write_array(rt.alloc(), &program).expect(&rt, "memory");
        assert!(rt; array.as_slice() == ARRAY.as_bytes());
    }
    let program = read_assembly(rt.alloc(), ARP.as_bytes()).expect(&rt, "a program");
    same(&rt, program.insns().len(), 4);
}

fn has_fault(rt: &(impl Abort + AllocGlobal), text: &[u8], fault: AssemblyFault) {
    same(rt, read_assembly(rt.alloc(), text).err(), Some(fault));
}

#[test]
fn faults_have_their_lines(rt: HostRuntime) {
    has_fault(
        &rt,
        b"ldh [12]\njmp on\n",
        AssemblyFault::Line(2, Cause::NoLabel),
    );
    has_fault(&rt, b"ldh", AssemblyFault::Line(1, Cause::BadOperand));
    has_fault(&rt, b"tax", AssemblyFault::Program(Invalid::NoReturn));
    has_fault(&rt, &[b';'; MAX_TEXT + 1], AssemblyFault::TextTooLong);
}

#[test]
fn a_digit_begins_a_listing(rt: HostRuntime) {
    same(&rt, is_assembly(b" \t\r\n4"), false);
    same(&rt, is_assembly(b""), false);
    same(&rt, is_assembly(b"(000) ret"), true);
    same(
        &rt,
        read_program(rt.alloc(), b"x").err(),
        Some(ProgramTextFault::Assembly(AssemblyFault::Line(1, Cause::UnknownName))),
    );
    same(
        &rt,
        read_program(rt.alloc(), b"1\nx").err(),
        Some(ProgramTextFault::Listing(ListingFault::BadLine(2))),
    );
}
