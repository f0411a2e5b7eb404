//! What an expression looks at.

ghost use Rattle.std.specs.Prelude.{◌≡◌, length, map, IfOk, IfErr, Result, List};
ghost use Rattle.filter_tree.specs.Trees.{tree_of};
ghost use Rattle.filter_meaning.specs.Meaning.{packet_of};
ghost use Rattle.bpftap_c.specs.declared.looks.BpftapLook.{BpftapLook as Looked};
ghost use Rattle.bpftap_c.specs.declared.outcome.Failure.{Failure};
ghost use Rattle.bpftap_c.specs.Looks.{look_of, looked, IsLooked};
ghost use Rattle.bpftap_c.specs.Memory.{Delivers, Puts};

use crate::filters::expression_of;
use crate::outcome::{BpftapResult, Failure, done, failed};
use bpfvm::NoMemory;
use filter_explain::explain;
use filter_meaning::{Look, looks_of};
use filter_tree::Expr;
use std::alloc::Global;

/// What a primitive or a relation looked at: `size` bytes from byte `offset` of the frame on, or
/// the length on the wire, with both numbers 0.
#[repr(C)]
#[derive(Clone, Copy, Debug, PartialEq, Eq)]
pub struct BpftapLook {
    pub offset: usize,
    pub size: usize,
}

/// A look as C has it.
fn look_of(look: &Look) -> BpftapLook
    ensures { result ≡ look_of look.now }
{
    match *look {
        Look::Bytes { offset, size } => BpftapLook { offset, size },
        Look::Length => BpftapLook { offset: 0, size: 0 },
    }
}

/// Fills an array with looks.
fn fill_looks(looks: &[Look], to: &mut [BpftapLook])
    requires { length to.old ≡ length looks.now }
    ensures { to.new ≡ map look_of looks.now }
{
    for place in 0..looks.len() {
        to[place] = look_of(&looks[place]);
    }
}

/// Puts looks into the front of the caller's array.
fn put_looks(looks: &[Look], to: &mut [BpftapLook]) -> BpftapResult
    ensures { Puts (map look_of looks.now) to.old to.new result }
{
    let size = looks.len();
    if to.len() < size {
        return failed(Failure::NoRoom(size));
    }
    fill_looks(looks, &mut to[..size]);
    done(size)
}

/// What the primitives and relations of an expression look at that a packet is asked, in order.
fn looks_in(alloc: Global, expr: &Expr, packet: &[u8], wire: u32) -> Result<Vec<Look>, NoMemory>
    ensures { IfOk result (λ looks. looks.items ≡ looked (tree_of expr.now) (packet_of packet.now wire)) }
{
    let asked = explain(alloc, expr, packet, wire)?;
    let mut looks = Vec::new(alloc);
    for part in &asked {
        let more = looks_of(alloc, part.part, packet, wire)?;
        looks.extend_from_slice(&more)?;
    }
    Ok(looks)
}

/// What an expression looks at, or why nothing is.
fn looks_at(alloc: Global, text: &[u8], packet: &[u8], wire: u32) -> Result<Vec<Look>, Failure>
    ensures ok { IfOk result (λ looks. IsLooked text.now packet.now wire (Result.Ok (map look_of looks.items))) }
    ensures err { IfErr result (λ failure. IsLooked text.now packet.now wire (Result.Err failure)) }
{
    let expr = match expression_of(alloc, text) {
        Ok(expr) => expr,
        Err(failure) => return Err(failure),
    };
    match looks_in(alloc, &expr, packet, wire) {
        Ok(looks) => Ok(looks),
        Err(_) => Err(Failure::NoMemory),
    }
}

/// Puts what an expression looks at of a packet into the front of the caller's array: what each
/// primitive or relation does that is asked, from left to right. A look may come more than once,
/// and its bytes need not have been captured.
#[unsafe(no_mangle)]
pub extern "C" fn bpftap_looks(
    alloc: Global,
    text: &[u8],
    packet: &[u8],
    wire: u32,
    to: &mut [BpftapLook],
) -> BpftapResult
    ensures { (made : Result (List Looked) Failure) × IsLooked text.now packet.now wire made × Delivers made to.old to.new result }
{
    match looks_at(alloc, text, packet, wire) {
        Ok(looks) => put_looks(&looks, to),
        Err(failure) => failed(failure),
    }
}
