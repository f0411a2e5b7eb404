//! Tests of the public surface as a caller outside writes it: each name, form and fault of the
//! libraries, with worked examples whose answers were made by hand.
#![tactic(auto)]

#[cfg(test)]
mod calls;
#[cfg(test)]
mod common;
#[cfg(test)]
mod compiler;
#[cfg(test)]
mod language;
#[cfg(test)]
mod listeners;
#[cfg(test)]
mod machine;
#[cfg(test)]
mod pairs;
#[cfg(test)]
mod savefiles;
#[cfg(test)]
mod taps;
#[cfg(test)]
mod threads;
