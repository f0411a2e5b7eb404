//! Instructions as C has them.

ghost use Rattle.std.specs.Prelude.{◌≡◌, ◌≤◌, ◌↔◌, Err, IfOk, IsOk, length};
ghost use Rattle.bpfvm.specs.Validity.{IsValidProgram, IsRefusedAs};
ghost use Rattle.bpftap_c.specs.Insns.{insn_of, insns_of};
ghost use Rattle.bpftap_c.specs.Memory.{Puts};

use crate::outcome::{BpftapResult, Failure, done, failed};
use arrayvec::ArrayVec;
use bpfvm::{Insn, Invalid, MAX_INSNS, Program};

/// An instruction: `struct bpf_insn` of bpf(4) and of libpcap, and `struct sock_filter` of Linux.
#[repr(C)]
#[derive(Clone, Copy, Debug, Default, PartialEq, Eq)]
pub struct BpftapInsn {
    pub code: u16,
    pub jt: u8,
    pub jf: u8,
    pub k: u32,
}

/// An instruction of the machine.
fn insn_of(insn: &BpftapInsn) -> Insn
    ensures { result ≡ insn_of insn.now }
{
    Insn {
        code: insn.code,
        jt: insn.jt,
        jf: insn.jf,
        k: insn.k,
    }
}

/// An instruction as C has it.
fn c_insn(insn: &Insn) -> BpftapInsn
    ensures { insn_of result ≡ insn.now }
{
    BpftapInsn {
        code: insn.code,
        jt: insn.jt,
        jf: insn.jf,
        k: insn.k,
    }
}

/// The instructions of the machine.
fn insns_of(insns: &[BpftapInsn]) -> ArrayVec<Insn, MAX_INSNS>
    requires { length insns.now ≤ 512 }
    ensures { result.items ≡ insns_of insns.now }
{
    let mut found = ArrayVec::new();
    for insn in insns {
        found.push(insn_of(insn));
    }
    found
}

/// The program that instructions are.
#[inline]
pub(crate) fn program_of(insns: &[BpftapInsn]) -> Result<Program, Invalid>
    ensures ok { IfOk result (λ program. program ≡ insns_of insns.now) }
    ensures valid { IsOk result ↔ IsValidProgram (insns_of insns.now) }
    ensures fault { (fault : Invalid) → (result ≡ Err fault) ↔ IsRefusedAs (insns_of insns.now) fault }
{
    if insns.len() > MAX_INSNS {
        return Err(Invalid::TooMany);
    }
    let found = insns_of(insns);
    Program::new(found.as_slice())
}

/// Fills an array with instructions.
fn fill_insns(insns: &[Insn], to: &mut [BpftapInsn])
    requires { length to.old ≡ length insns.now }
    ensures { insns_of to.new ≡ insns.now }
{
    for place in 0..insns.len() {
        to[place] = c_insn(&insns[place]);
    }
}

/// Puts instructions into the front of the caller's array.
pub(crate) fn put_insns(insns: &[Insn], to: &mut [BpftapInsn]) -> BpftapResult
    ensures { Puts insns.now (insns_of to.old) (insns_of to.new) result }
{
    let size = insns.len();
    if to.len() < size {
        return failed(Failure::NoRoom(size));
    }
    fill_insns(insns, &mut to[..size]);
    done(size)
}
