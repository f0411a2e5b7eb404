//! Tests of `tap`, `cli_steps` and `tap_picture` that the program does not show: what replays
//! answer, an output that sends nothing on, and the callers of the pages.
#![tactic(auto)]

#[cfg(test)]
mod callers;
#[cfg(test)]
mod devices;
#[cfg(test)]
mod in_memory;
#[cfg(test)]
mod replays;
#[cfg(test)]
mod same;
#[cfg(test)]
mod told;
