//! An end goes on after its other one was dropped. No contract says so, since such a pair is never
//! settled.

use super::{feeds_on, reads_on, together};
use crate::same::same;
use crate::shown::keeping;
use handover::pair;
use std::test::Fail;

#[test]
fn a_drain_reads_what_is_held_once_its_feeder_is_dropped(rt: HostRuntime) -> Result<(), Fail> {
    let alloc = rt.alloc();
    let mut out = String::new(alloc);
    let (link, mut feeder, mut drain) = pair(alloc, keeping(32)?, 32, 64)?;
    together(alloc, &link, &mut feeder, &mut drain, "aa", &mut out)?;
    drop(feeder);
    reads_on(alloc, &link, &mut drain, 3, &mut out)?;
    let want = "Stored, Rotated, Full 0, Nothing 0, Nothing 0, ";
    same(&rt, out.as_str(), want);
    Ok(())
}

#[test]
fn a_drain_finds_the_end_once_the_ended_feeder_is_dropped(rt: HostRuntime) -> Result<(), Fail> {
    let alloc = rt.alloc();
    let mut out = String::new(alloc);
    let (link, mut feeder, mut drain) = pair(alloc, keeping(32)?, 32, 64)?;
    together(alloc, &link, &mut feeder, &mut drain, "aa", &mut out)?;
    drop(feeder.end(&link));
    reads_on(alloc, &link, &mut drain, 3, &mut out)?;
    let want = "Stored, Rotated, Full 0, Ended 0, Ended 0, ";
    same(&rt, out.as_str(), want);
    Ok(())
}

#[test]
fn a_feeder_goes_on_once_its_drain_is_dropped(rt: HostRuntime) -> Result<(), Fail> {
    let alloc = rt.alloc();
    let mut out = String::new(alloc);
    let (link, mut feeder, mut drain) = pair(alloc, keeping(32)?, 32, 64)?;
    let place = together(alloc, &link, &mut feeder, &mut drain, "a", &mut out)?;
    drop(drain);
    feeds_on(&link, &mut feeder, "aafa", place, &mut out)?;
    let want = "Stored, Rotated, Dropped, false, Dropped, ";
    same(&rt, out.as_str(), want);
    Ok(())
}

#[test]
fn a_feeder_finds_the_close_once_the_closed_drain_is_dropped(rt: HostRuntime) -> Result<(), Fail> {
    let alloc = rt.alloc();
    let mut out = String::new(alloc);
    let (link, mut feeder, mut drain) = pair(alloc, keeping(32)?, 32, 64)?;
    let place = together(alloc, &link, &mut feeder, &mut drain, "aa", &mut out)?;
    drop(drain.close(&link));
    feeds_on(&link, &mut feeder, "af", place, &mut out)?;
    same(&rt, out.as_str(), "Stored, Rotated, Closed, false, ");
    Ok(())
}
