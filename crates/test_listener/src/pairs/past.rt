//! What is left of a pair whose rest was taken before it was settled.

use super::together;
use crate::same::same;
use crate::shown::{keeping, put_state};
use handover::{pair, settle_bare};
use std::process::Abort;
use std::test::Fail;

#[test]
fn a_rest_may_be_taken_before_the_pair_is_settled(rt: HostRuntime) -> Result<(), Fail> {
    let alloc = rt.alloc();
    let mut out = String::new(alloc);
    let (link, mut feeder, mut drain) = pair(alloc, keeping(32)?, 32, 64)?;
    together(alloc, &link, &mut feeder, &mut drain, "aa", &mut out)?;
    let (feed_end, rest) = feeder.end(&link).take_rest();
    let drain_end = drain.close(&link);
    let left = settle_bare(link, feed_end, drain_end);
    put_state(&left.hold, &rest, left.counts, &mut out)?;
    let want = "Stored, Rotated, held 0, stored 1; 2 2 0";
    same(&rt, out.as_str(), want);
    Ok(())
}

#[test]
fn a_past_prints_only_its_name(rt: HostRuntime) -> Result<(), Fail> {
    let alloc = rt.alloc();
    let (link, feeder, drain) = pair(alloc, keeping(32)?, 96, 4096)?;
    let (feed_end, _rest) = feeder.end(&link).take_rest();
    let drain_end = drain.close(&link);
    let left = settle_bare(link, feed_end, drain_end);
    let printed = format!(in alloc; "{:?}", left.past)?;
    same(&rt, printed.as_str(), "Past");
    Ok(())
}
