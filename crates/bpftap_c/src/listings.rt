//! Programs that are handed in: checked, and as text.

ghost use Rattle.std.specs.Prelude.{◌≡◌, IfErr, IfOk, Result, List, ℕ};
ghost use Rattle.bpfvm.specs.declared.insn.Insn.{Insn};
ghost use Rattle.bpfvm.specs.Images.{image_of};
ghost use Rattle.bpfvm.specs.Listing.{listing_of};
ghost use Rattle.bpftap_c.specs.declared.outcome.Failure.{Failure};
ghost use Rattle.bpftap_c.specs.Insns.{insns_of};
ghost use Rattle.bpftap_c.specs.Listings.{Checks, IsReadListing, IsTextOf};
ghost use Rattle.bpftap_c.specs.Memory.{Delivers, DeliversText};

use crate::insns::{BpftapInsn, program_of, put_insns};
use crate::memory::put_text;
use crate::outcome::{BpftapResult, Failure, done, failed};
use bpfvm::{read_listing, write_image, write_listing};
use std::alloc::Global;

/// Says whether instructions are a program, or what is wrong with which of them.
#[unsafe(no_mangle)]
pub extern "C" fn bpftap_check(insns: &[BpftapInsn]) -> BpftapResult
    ensures { Checks (insns_of insns.now) result }
{
    match program_of(insns) {
        Ok(_) => done(insns.len()),
        Err(fault) => failed(Failure::Program(fault)),
    }
}

/// Reads a listing, the form of `tcpdump -ddd`, into the front of the caller's array.
#[unsafe(no_mangle)]
pub extern "C" fn bpftap_read_listing(text: &[u8], insns: &mut [BpftapInsn]) -> BpftapResult
    ensures { (made : Result (List Insn) Failure) × IsReadListing text.now made
        × Delivers made (insns_of insns.old) (insns_of insns.new) result }
{
    match read_listing(text) {
        Ok(program) => put_insns(program.insns(), insns),
        Err(fault) => failed(Failure::Listing(fault)),
    }
}

/// The listing of instructions, or why there is none.
fn listing(alloc: Global, insns: &[BpftapInsn]) -> Result<Vec<u8>, Failure>
    ensures ok { IfOk result (λ text. IsTextOf listing_of (insns_of insns.now) (Result.Ok text.items)) }
    ensures err { IfErr result (λ failure. IsTextOf listing_of (insns_of insns.now) (Result.Err failure)) }
{
    match program_of(insns) {
        Ok(program) => match write_listing(alloc, &program) {
            Ok(text) => Ok(text),
            Err(_) => Err(Failure::NoMemory),
        },
        Err(fault) => Err(Failure::Program(fault)),
    }
}

/// Writes the listing of a program.
#[unsafe(no_mangle)]
pub extern "C" fn bpftap_write_listing(
    alloc: Global,
    insns: &[BpftapInsn],
    to: &mut [u8],
) -> BpftapResult
    ensures { (made : Result (List ℕ) Failure) × IsTextOf listing_of (insns_of insns.now) made
        × DeliversText made to.old to.new result }
{
    match listing(alloc, insns) {
        Ok(text) => put_text(&text, to),
        Err(failure) => failed(failure),
    }
}

/// The image of instructions, or why there is none.
fn image(alloc: Global, insns: &[BpftapInsn]) -> Result<Vec<u8>, Failure>
    ensures ok { IfOk result (λ text. IsTextOf image_of (insns_of insns.now) (Result.Ok text.items)) }
    ensures err { IfErr result (λ failure. IsTextOf image_of (insns_of insns.now) (Result.Err failure)) }
{
    match program_of(insns) {
        Ok(program) => match write_image(alloc, &program) {
            Ok(text) => Ok(text),
            Err(_) => Err(Failure::NoMemory),
        },
        Err(fault) => Err(Failure::Program(fault)),
    }
}

/// Writes a program by the names of its instructions, as `tcpdump -d` does.
#[unsafe(no_mangle)]
pub extern "C" fn bpftap_image(alloc: Global, insns: &[BpftapInsn], to: &mut [u8]) -> BpftapResult
    ensures { (made : Result (List ℕ) Failure) × IsTextOf image_of (insns_of insns.now) made
        × DeliversText made to.old to.new result }
{
    match image(alloc, insns) {
        Ok(text) => put_text(&text, to),
        Err(failure) => failed(failure),
    }
}
