//! The caller that the page of `filtergen` shows, crates/filtergen/README.md.

use crate::same::same;
use bpfvm::{Program, run};
use filtergen::{Refusal, compile};
use filterlang::parse;
use std::alloc::Global;
use std::process::Abort;
use thiserror::Error;

/// Why a text is no filter.
#[derive(Clone, Copy, Debug, PartialEq, Eq, Error)]
pub enum NoFilter {
    #[error("{0}")]
    Text(filterlang::Fault),
    #[error("{0}")]
    Tree(Refusal),
}

/// The filter of a text, which keeps at most `snap` bytes of a packet.
pub fn filter(alloc: Global, text: &str, snap: u32) -> Result<Program, NoFilter> {
    match parse(alloc, text) {
        Ok(expr) => match compile(&expr, snap) {
            Ok(program) => Ok(program),
            Err(refusal) => Err(NoFilter::Tree(refusal)),
        },
        Err(fault) => Err(NoFilter::Text(fault)),
    }
}

/// How many of a packet's captured bytes the filter keeps; 0 where it rejects the packet, which had `wire` bytes.
pub fn kept(filter: &Program, captured: &[u8], wire: u32) -> usize {
    captured.len().min(run(filter, captured, wire) as usize)
}

/// The first 16 bytes of a frame of IPv4.
const FRAME: [u8; 16] = [0, 0, 0, 0, 0, 0, 0, 0, 0, 0, 0, 0, 8, 0, 69, 0];

/// The filter of a text keeps this many bytes of it.
fn keeps(rt: &(impl Abort + AllocGlobal), text: &str, snap: u32, wire: u32, want: usize) {
    let filter = filter(rt.alloc(), text, snap).expect(rt, "a filter");
    same(rt, kept(&filter, &FRAME, wire), want);
}

/// A text is no filter, for this.
fn is_none(rt: &(impl Abort + AllocGlobal), text: &str, snap: u32, why: NoFilter) {
    same(rt, filter(rt.alloc(), text, snap).err(), Some(why));
}

#[test]
fn a_listener_keeps_what_its_filter_says(rt: HostRuntime) {
    keeps(&rt, "ip and less 60", 20, 60, 16);
    keeps(&rt, "ip and less 60", 20, 61, 0);
    keeps(&rt, "", 10, 61, 10);
    let fault = NoFilter::Text(filterlang::Fault::NoQualifier(8));
    is_none(&rt, "tcp and 80", 20, fault);
    is_none(&rt, "tcp", 0, NoFilter::Tree(Refusal::BadSnap));
}
