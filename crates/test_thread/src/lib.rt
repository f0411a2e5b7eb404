//! Tests of `cli_run` that the program does not show: devices that break and are counted, and ends
//! that no capture brings about.
#![tactic(auto)]

#[cfg(test)]
mod run_devices;
#[cfg(test)]
mod run_plan;
#[cfg(test)]
mod same;
#[cfg(test)]
mod tally;
#[cfg(test)]
mod told;
