//! Tests of `replay`.
#![tactic(auto)]

#[cfg(test)]
mod replays;
#[cfg(test)]
mod same;
